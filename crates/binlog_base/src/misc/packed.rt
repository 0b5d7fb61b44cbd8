//! Packed times as numbers: the seconds and the larger units times 2^24, plus the microseconds.

ghost use Rattle.std.specs.Prelude.{◌≡◌, ◌^◌, ◌<◌, pos, unsigned_abs, int_rem, FitsSigned};
ghost use Rattle.std.specs.Int.{w64, int_div_euclid, IsNonNegative};
ghost use Rattle.binlog_base.specs.PackedTimes.{packed_time, packed_whole};

/// The number that is subtracted from the first three bytes of a TIME2 of up to four decimals:
/// 2^23.
pub const TIMEF_INT_OFS: i64 = 0x80_0000;

/// The number that is subtracted from the six bytes of a TIME2 of five or six decimals: 2^47.
pub const TIMEF_OFS: i64 = 0x8000_0000_0000;

/// The number that is subtracted from the first five bytes of a DATETIME2: 2^39.
pub const DATETIMEF_INT_OFS: i64 = 0x80_0000_0000;

const UNIT: i64 = 0x100_0000;

/// Returns the packed time of `i` (the seconds and the larger units) and no microseconds: `i` times
/// 2^24, which wraps around at 64 bits.
pub fn my_packed_time_make_int(i: i64) -> i64
    ensures { result ≡ packed_whole i }
{
    i.wrapping_mul(UNIT)
}

/// Returns the packed time of `i` (the seconds and the larger units) and of `f` microseconds: `i`
/// times 2^24, plus `f`. The sum has to fit an `i64`.
pub fn my_packed_time_make(i: i64, f: i64) -> i64
    requires fits { FitsSigned w64 (packed_time i f) }
    ensures { result ≡ packed_time i f }
{
    i.wrapping_mul(UNIT).wrapping_add(f)
}

/// Returns the seconds and the larger units of a packed time: the quotient of `i` by 2^24, rounded
/// down.
pub fn my_packed_time_get_int_part(i: i64) -> i64
    ensures { result ≡ int_div_euclid i (pos (2 ^ 24)) }
{
    i.div_euclid(UNIT)
}

/// Returns the microseconds of a packed time: the remainder of `i` by 2^24, which is 0 or has the
/// sign of `i`.
pub fn my_packed_time_get_frac_part(i: i64) -> i64
    ensures value { result ≡ int_rem i (pos (2 ^ 24)) }
    // The two parts of a number that isn't negative make that number again.
    ensures whole { IsNonNegative i → packed_time (int_div_euclid i (pos (2 ^ 24))) result ≡ i }
{
    i % UNIT
}
