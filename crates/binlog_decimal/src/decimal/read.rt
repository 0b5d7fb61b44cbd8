//! Reads decimals in MySQL's packed DECIMAL format from a source.

ghost use Rattle.binlog_base.specs.declared.fault.Fault.TheVariants.{DecimalScale};
ghost use Rattle.std.specs.Prelude.{true, [], ◌-◌, Err, ◌≡◌, ◌≢◌, ◌≤◌, ◌<◌, ◌+◌, ◌^◌, ◌==◌, length, IfOk};
ghost use Rattle.std.specs.Prelude.{false};
ghost use Rattle.binlog_base.specs.Format.{Parses, ParsesAs, OrMemory, map_value};
ghost use Rattle.binlog_base.specs.Numbers.{big_endian};
ghost use Rattle.binlog_base.specs.Lemmas.Numbers.{exact_big_endian};
ghost use Rattle.binlog_base.specs.Widths.{IsOfWidth};
ghost use Rattle.binlog_base.specs.Sources.{ReadsFromOrMemory};
ghost use Rattle.binlog_decimal.specs.Decimals.{packed_size, integer_groups, without_zero_groups, trimmed_decimal, kept_decimal};
ghost use Rattle.binlog_decimal.specs.PackedDecimals.{packed_decimal, counted_decimal};
ghost use Rattle.binlog_decimal.specs.DecimalText.{decimal_text};

use super::group::digits_size;
use super::lent::LentDigits;
use super::short::{MAX_FRACTION, MAX_INTEGER, short_text};
use super::text::long_text;
use super::unpack::unpack;
use super::{DIG_PER_DEC, Decimal};
use crate::digits::all_zeros;
use binlog_base::below::{OfWidth, ParseBuf, Source, read_exact, read_number, read_of_width};
use binlog_base::fault::Fault;
use byteorder::BigEndian;
use std::alloc::Global;

// Returns the digits before the point without the groups at their start that are all zeros.
pub(super) fn without_zero_groups(digits: &[u8]) -> &[u8]
    ensures { result.now ≡ without_zero_groups (integer_groups (length digits.now)) digits.now }
{
    let (group, nines) = digits.split_at(digits.len() % DIG_PER_DEC);
    if !all_zeros(group, 0) {
        return digits;
    }
    let mut left = nines;
    while left.len() >= DIG_PER_DEC {
        let (group, rest) = left.split_at(DIG_PER_DEC);
        if !all_zeros(group, 0) {
            return left;
        }
        left = rest;
    }
    left
}

// Returns whether there are no digits at all.
pub(super) fn no_digit(integer: &[u8], fraction: &[u8]) -> bool
    ensures { result ≡ (length integer.now + length fraction.now == 0) }
{
    integer.is_empty() && fraction.is_empty()
}

// A precision or a scale, written in one byte.
pub(super) struct Count;

impl OfWidth for Count {
    ghost format = { λ _. big_endian 1 };

    ghost exact = { λ _. exact_big_endian 1 };

    type Ctx = ();

    type Primitive = u64;

    #[tactic(auto, using(binlog_base::specs::Lemmas::Widths::big_of_width))]
    fn width(_ctx: ()) -> usize {
        1
    }

    fn deserialize(_ctx: (), buf: &mut ParseBuf<'_>) -> Result<u64, Fault> {
        read_number::<BigEndian, u64>(1, buf)
    }
}

// The most digits of a decimal that is read without memory of its own: as many as a precision of one
// byte counts. Below it is a bound of the bytes that these digits take in packed form.
pub(super) const MAX_PRECISION: usize = 255;

pub(super) const MAX_SIZE: usize = 128;

impl Decimal {
    // Reads a decimal from all of these packed bytes, and overwrites them. There is room for exactly
    // its digits.
    #[tactic(auto, unfolding(crate::specs::PackedDecimals::packed_decimal))]
    fn of_bytes(
        alloc: Global,
        bytes: &mut [u8],
        digits: &mut [u8],
        scale: usize,
        keep_prec: bool,
    ) -> Result<Decimal, Fault>
        requires scale { scale ≤ length digits.now }
        requires some { 0 < length digits.now }
        requires size { length bytes.now ≡ packed_size (length digits.now - scale) scale }
        ensures { OrMemory result (Parses (packed_decimal (length digits.old) scale keep_prec) result bytes.old []) }
    {
        let (integer, fraction) = digits.split_at_mut(digits.len() - scale);
        let negative = unpack(bytes, integer, fraction)?;
        let decimal = LentDigits {
            negative,
            integer,
            fraction,
        };
        if keep_prec {
            Ok(decimal.to_decimal(alloc)?)
        } else {
            Ok(decimal.trimmed().to_decimal(alloc)?)
        }
    }

    // Reads a decimal, where there is room for exactly its packed bytes. Room for its digits is made
    // once the bytes are read, so that a short source asks for no memory for them.
    fn read_with<S: Source>(
        alloc: Global,
        reader: &mut S,
        bytes: &mut [u8],
        precision: usize,
        scale: usize,
        keep_prec: bool,
    ) -> Result<Decimal, Fault>
        requires scale { scale ≤ precision }
        requires some { 0 < precision }
        requires size { length bytes.now ≡ packed_size (precision - scale) scale }
        ensures { ReadsFromOrMemory (packed_decimal precision scale keep_prec) result
            (S.remaining reader.old) (S.remaining reader.new)
            (S.failures reader.old) (S.failures reader.new) }
    {
        read_exact(reader, bytes)?;
        if precision <= MAX_PRECISION {
            let mut digits = [0; MAX_PRECISION];
            return Decimal::of_bytes(alloc, bytes, &mut digits[..precision], scale, keep_prec);
        }
        let mut digits = vec![in alloc; 0u8; precision]?;
        Decimal::of_bytes(alloc, bytes, digits.as_mut_slice(), scale, keep_prec)
    }

    /// Reads a decimal of `precision` digits, `scale` of them after the point, in MySQL's packed
    /// DECIMAL format.
    ///
    /// If `keep_prec` is false, the groups at the start of the digits before the point that are all
    /// zeros are dropped, and the result is positive zero of one digit where no digit is left. If
    /// `precision` is 0, nothing is read and the result is positive zero of one digit.
    ///
    /// The faults are `DecimalScale` if `scale` is above `precision`, before anything is read;
    /// `UnexpectedEof` if the source ends early; `Reader` if the source fails; `DecimalGroup` if
    /// the number of a group has more digits than the group; `Memory` if memory is refused.
    pub fn read_bin<S: Source>(
        alloc: Global,
        reader: &mut S,
        precision: usize,
        scale: usize,
        keep_prec: bool,
    ) -> Result<Decimal, Fault>
        ensures answer { ReadsFromOrMemory (packed_decimal precision scale keep_prec) result
            (S.remaining reader.old) (S.remaining reader.new)
            (S.failures reader.old) (S.failures reader.new) }
        ensures scale_first { precision < scale
            → (result ≡ Err DecimalScale) × (reader.new ≡ reader.old) }
        ensures nothing_read { precision ≡ 0 → reader.new ≡ reader.old }
    {
        if scale > precision {
            return Err(Fault::DecimalScale);
        }
        if precision == 0 {
            return Ok(Decimal::default(alloc)?);
        }
        let size = digits_size(precision - scale) + digits_size(scale);
        if precision <= MAX_PRECISION {
            let mut bytes = [0; MAX_SIZE];
            let packed = &mut bytes[..size];
            return Decimal::read_with(alloc, reader, packed, precision, scale, keep_prec);
        }
        let mut bytes = vec![in alloc; 0u8; size]?;
        let packed = bytes.as_mut_slice();
        Decimal::read_with(alloc, reader, packed, precision, scale, keep_prec)
    }

    /// Reads one byte of precision, one byte of scale, and then a decimal of this precision and
    /// scale in MySQL's packed DECIMAL format.
    ///
    /// The decimal is read as `read_bin` reads it, with the same faults. `UnexpectedEof` and
    /// `Reader` can also come from the two bytes before it.
    pub fn read_packed<S: Source>(
        alloc: Global,
        reader: &mut S,
        keep_precision: bool,
    ) -> Result<Decimal, Fault>
        ensures { ReadsFromOrMemory (counted_decimal keep_precision) result
            (S.remaining reader.old) (S.remaining reader.new)
            (S.failures reader.old) (S.failures reader.new) }
    {
        let precision = read_of_width::<S, Count>(reader, ())?;
        let scale = read_of_width::<S, Count>(reader, ())?;
        Decimal::read_bin(
            alloc,
            reader,
            precision as usize,
            scale as usize,
            keep_precision,
        )
    }

    /// Reads a decimal from bytes as `read_bin` does if `keep_prec` is false, and returns the bytes
    /// of its text, as `Display` writes it. Memory is taken for the text alone.
    ///
    /// The faults are those of `read_bin`, but for `Reader`.
    #[tactic(auto, unfolding(crate::specs::PackedDecimals::packed_decimal))]
    pub fn read_text(
        alloc: Global,
        buf: &mut ParseBuf<'_>,
        precision: u8,
        scale: u8,
    ) -> Result<Vec<u8>, Fault>
        ensures { OrMemory result (ParsesAs (λ text. text.items)
            (map_value (packed_decimal precision scale false) decimal_text)
            result buf.old.0.now buf.new.0.now) }
    {
        if scale > precision {
            return Err(Fault::DecimalScale);
        }
        if precision == 0 {
            return Ok(vec![in alloc; b'0']?);
        }
        let (integer, fraction) = (usize::from(precision - scale), usize::from(scale));
        let packed = buf.eat(digits_size(integer) + digits_size(fraction))?;
        if integer <= MAX_INTEGER && fraction <= MAX_FRACTION {
            short_text(alloc, packed, integer, fraction)
        } else {
            long_text(alloc, packed, integer, fraction)
        }
    }
}
