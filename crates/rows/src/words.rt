//! Reads the arguments of the program.

ghost use Rattle.std.specs.Prelude.{◌≡◌, ◌≢◌, ◌⊎◌, map, length, IfOk, IfErr, List, ℕ};
ghost use Rattle.std.specs.String.{string_bytes};
ghost use Rattle.mysql_binlog_rows.specs.Decodes.{Input};
ghost use Rattle.rows.specs.Words.{IsByteNumber, IsHex, IsHexByte, IsEventType, AreSixArguments, AreArguments, input_of};
ghost use Rattle.rows.specs.declared.words.WordsError.TheVariants as WordsError;

use binlog_consts::consts::EventType;
use hex::FromHexError;
use mysql_binlog_rows::rows_event::RowsEventCtx;
use std::alloc::Global;
use thiserror::Error;

/// Why the arguments are refused.
#[derive(Clone, Copy, Debug, PartialEq, Eq, Error)]
pub enum WordsError {
    /// There aren't six arguments, or one isn't in its form.
    #[error("usage: rows MLEN TYPE PLEN WLEN MAPHEX ROWSHEX")]
    Usage,
    /// Memory was refused.
    #[error("out of memory")]
    Memory,
}

/// What the arguments mean: the bodies of both events, and what is needed to read them.
#[derive(Drop)]
pub struct Words {
    pub table_post_header_len: u8,
    pub ctx: RowsEventCtx,
    pub table: Vec<u8>,
    pub rows: Vec<u8>,
}

// Reads a number from 0 to 255, written as one to three decimal digits.
fn byte_number(word: &str) -> Result<u8, WordsError>
    ensures ok { IfOk result (λ n. IsByteNumber word.now n) }
    ensures err { IfErr result (λ e. (e ≡ WordsError.Usage) × ((n : ℕ) → IsByteNumber word.now n → ⊥)) }
{
    // `parse` accepts a plus before the digits, so it is refused here.
    if word.len() > 3 || matches!(word.as_bytes(), [b'+', ..]) {
        return Err(WordsError::Usage);
    }
    match word.parse::<u8>() {
        Ok(number) => Ok(number),
        Err(_) => Err(WordsError::Usage),
    }
}

// Reads a byte, written as two hexadecimal digits.
fn hex_byte(word: &str) -> Result<u8, WordsError>
    ensures ok { IfOk result (λ n. IsHexByte word.now n) }
    ensures err { IfErr result (λ e. (e ≡ WordsError.Usage) × ((n : ℕ) → IsHexByte word.now n → ⊥)) }
{
    let mut number = [0];
    match hex::decode_to_slice(word, &mut number) {
        Ok(()) => Ok(number[0]),
        Err(_) => Err(WordsError::Usage),
    }
}

// Reads an event type, written as its number in two hexadecimal digits.
fn event_type(word: &str) -> Result<EventType, WordsError>
    ensures ok { IfOk result (λ type. IsEventType word.now type) }
    ensures err { IfErr result (λ e. (e ≡ WordsError.Usage)
        × ((type : EventType) → IsEventType word.now type
        → ⊥)) }
{
    let number = hex_byte(word)?;
    match EventType::try_from(number) {
        Ok(event_type) => Ok(event_type),
        Err(_) => Err(WordsError::Usage),
    }
}

// Reads bytes, each written as two hexadecimal digits.
fn hex_bytes(alloc: Global, word: &str) -> Result<Vec<u8>, WordsError>
    ensures ok { IfOk result (λ bytes. IsHex word.now bytes.items) }
    ensures err { IfErr result
        (λ e. (e ≡ WordsError.Memory) ⊎ ((bytes : List ℕ) → IsHex word.now bytes → ⊥)) }
{
    hex::decode(alloc, word).map_err(|error| match error {
        FromHexError::OutOfMemory => WordsError::Memory,
        _ => WordsError::Usage,
    })
}

// Reads the six arguments, in the order of the command line.
fn six_words(
    alloc: Global,
    table_len: &str,
    event: &str,
    len: &str,
    write_len: &str,
    table: &str,
    rows: &str,
) -> Result<Words, WordsError>
    ensures ok { IfOk result (λ w. AreSixArguments
        table_len.now event.now len.now write_len.now table.now rows.now (input_of w)) }
    ensures err { IfErr result (λ e. (e ≡ WordsError.Memory) ⊎ ((i : Input) → AreSixArguments
        table_len.now event.now len.now write_len.now table.now rows.now i → ⊥)) }
{
    let table_post_header_len = byte_number(table_len)?;
    let event_type = event_type(event)?;
    let post_header_len = byte_number(len)?;
    let write_rows_post_header_len = byte_number(write_len)?;
    let ctx = RowsEventCtx {
        event_type,
        post_header_len,
        write_rows_post_header_len,
    };
    let table = hex_bytes(alloc, table)?;
    let rows = hex_bytes(alloc, rows)?;
    Ok(Words {
        table_post_header_len,
        ctx,
        table,
        rows,
    })
}

impl Words {
    /// Reads the arguments `MLEN TYPE PLEN WLEN MAPHEX ROWSHEX`.
    ///
    /// Fails with `Usage` if there aren't six arguments or one isn't in its form, and with `Memory`
    /// if memory is refused.
    pub fn read(alloc: Global, words: &[String]) -> Result<Words, WordsError>
        ensures ok { IfOk result (λ w. AreArguments (map string_bytes words.now) (input_of w)) }
        ensures err { IfErr result (λ e. (e ≡ WordsError.Memory)
            ⊎ ((i : Input) → AreArguments (map string_bytes words.now) i → ⊥)) }
        ensures count { length words.now ≢ 6 → result ≡ Err WordsError.Usage }
    {
        if words.len() != 6 {
            return Err(WordsError::Usage);
        }
        six_words(
            alloc, &words[0], &words[1], &words[2], &words[3], &words[4], &words[5],
        )
    }
}
