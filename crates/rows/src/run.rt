//! Runs the program on its arguments.

ghost use Rattle.std.specs.Prelude.{◌≡◌, ◌≢◌, ◌≤◌, map, length, IfOk, OnOk, List, None};
ghost use Rattle.std.specs.String.{string_bytes};
ghost use Rattle.std.specs.Io.KnownBytes.{Appends, Keeps};
ghost use Rattle.binlog_table.specs.TableMap.{TableMap};
ghost use Rattle.mysql_binlog_rows.specs.RowsEvent.{RowsEvent as Event};
ghost use Rattle.mysql_binlog_rows.specs.Images.{Pair, pair};
ghost use Rattle.mysql_binlog_rows.specs.Cover.{Covers};
ghost use Rattle.mysql_binlog_rows.specs.Rows.{GivesPairsOf};
ghost use Rattle.mysql_binlog_rows.specs.Decodes.{Input, input, Decodes};
ghost use Rattle.row_lines.specs.Lines.{lines_text};
ghost use Rattle.rows.specs.Words.{AreArguments};

use crate::words::{Words, WordsError};
use binlog_base::below::{ParseBuf, Server};
use binlog_base::fault::Fault;
use binlog_table::table_map::TableMapEvent;
use mysql_binlog_rows::rows_event::{LentPair, RowsEvent, RowsEventCtx, RowsEventRows};
use row_lines::push_line;
use std::alloc::Global;
use std::io;
use std::io::Write;

// The lines of pairs of rows, and the fault that comes after them.
#[derive(Drop)]
struct Lines {
    text: Vec<u8>,
    fault: Option<Fault>,
}

/// Runs the program on the arguments after its name, `MLEN TYPE PLEN WLEN MAPHEX ROWSHEX`, and
/// returns the exit status.
///
/// MLEN, PLEN and WLEN are the post-header lengths of the table map event, of the rows event and of
/// WRITE_ROWS_EVENT, in decimal. TYPE is the rows event's type, in two hexadecimal digits. MAPHEX
/// and ROWSHEX are the events' bodies, in hexadecimal digits.
///
/// Each pair of rows is written to `out` as a line, in the form of `row_lines`. If there is a fault,
/// the line `fault NAME` follows, with the fault's number or cause in parentheses if it has one.
/// The status is 0 if there is no fault, and 1 if there is one or if the output fails.
///
/// If there aren't six arguments, or one isn't in its form, nothing is decoded: one line is written
/// to `err` and nothing to `out`, and the status is 2.
pub fn run<O: Write, E: Write>(alloc: Global, words: &[String], out: &mut O, err: &mut E) -> u8
    // Status 0: the arguments mean two events, the pairs cover the rows data without a fault, and
    // their lines were written.
    ensures pairs { result ≡ 0 → (i : Input) × AreArguments (map string_bytes words.now) i
        × ((pairs : List Pair) × Decodes i pairs None
        × Appends (O.contents out.old) (O.contents out.new) (lines_text pairs)) }
    // Status 2: the arguments mean no two events, and nothing was written to the output.
    ensures usage { result ≡ 2 → (i : Input) → AreArguments (map string_bytes words.now) i → ⊥ }
    ensures quiet { result ≡ 2 → out.new ≡ out.old }
    ensures count { length words.now ≢ 6 → result ≡ 2 }
    ensures status { result ≤ 2 }
{
    let words = match Words::read(alloc, words) {
        Ok(words) => words,
        Err(error @ WordsError::Usage) => {
            let _ = writeln!(err, "{error}");
            return 2;
        }
        Err(WordsError::Memory) => return fail(out, Fault::Memory),
    };
    let len = words.table_post_header_len;
    match decode_lines(alloc, &words.table, len, &words.rows, words.ctx) {
        Ok(lines) => match print(out, &lines) {
            Ok(()) if lines.fault.is_none() => 0,
            _ => 1,
        },
        Err(fault) => fail(out, fault),
    }
}

/// Writes the line `fault NAME`, and returns the exit status 1, even if the line can't be written.
pub(crate) fn fail<O: Write>(out: &mut O, fault: Fault) -> u8
    ensures { result ≡ 1 }
{
    let _ = print_fault(out, fault);
    1
}

fn print_fault<O: Write>(out: &mut O, fault: Fault) -> io::Result<()> {
    writeln!(out, "fault {fault:?}")?;
    out.flush()
}

// Returns the lines of the pairs of rows that an iterator gives, up to its first fault. The error is
// `Memory`.
fn lines_of(alloc: Global, rows: RowsEventRows<'_>) -> Result<Lines, Fault>
    ensures { (t : TableMap) (e : Event) → GivesPairsOf t e rows.entry
        → IfOk result (λ l. (pairs : List Pair) × Covers (pair t e) rows.entry.left pairs l.fault
        × (l.text.items ≡ lines_text pairs)) }
{
    let mut rows = rows;
    let mut pair = LentPair::new(alloc);
    let mut text = Vec::new(alloc);
    while let Some(read) = rows.next_lent(&mut pair) {
        match read {
            Ok(()) => push_line(alloc, &mut text, &pair)?,
            Err(fault) => {
                return match fault {
                    Fault::Memory => Err(fault),
                    _ => Ok(Lines {
                        text,
                        fault: Some(fault),
                    }),
                };
            }
        }
    }
    Ok(Lines { text, fault: None })
}

// Reads both events, and returns the lines of the rows event's pairs of rows, up to its first fault.
fn decode_lines(
    alloc: Global,
    table_bytes: &[u8],
    table_post_header_len: u8,
    rows_bytes: &[u8],
    ctx: RowsEventCtx,
) -> Result<Lines, Fault>
    ensures { IfOk result (λ l. (pairs : List Pair)
        × Decodes (input table_bytes.now table_post_header_len rows_bytes.now ctx) pairs l.fault
        × (l.text.items ≡ lines_text pairs)) }
{
    let table: TableMapEvent<'_> = ParseBuf(table_bytes).parse(table_post_header_len)?;
    let table = table.with_server(Server::MySql);
    let event: RowsEvent<'_> = ParseBuf(rows_bytes).parse(ctx)?;
    lines_of(alloc, event.rows(alloc, &table))
}

// Writes the lines of the pairs, and the line of the fault if there is one.
fn print<O: Write>(out: &mut O, lines: &Lines) -> io::Result<()>
    ensures { lines.now.fault ≡ None → OnOk result
        (Appends (O.contents out.old) (O.contents out.new) lines.now.text.items) }
{
    out.write_all(&lines.text)?;
    match lines.fault {
        None => out.flush(),
        Some(fault) => print_fault(out, fault),
    }
}
