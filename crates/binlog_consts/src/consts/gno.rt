//! The number of a transaction within a GTID.

ghost use Rattle.std.specs.Prelude.{◌≡◌, ℕ, IsTrue, if◌then◌else◌, Ok, Err};
ghost use Rattle.binlog_consts.specs.GroupNumbers.{is_group_number};

use std::marker::Model;
use thiserror::Error;

/// The group number of a GTID, which comes after the source's UUID. It is 0 in the event of an
/// anonymous transaction, else at least `MIN_GNO` and below `MAX_GNO`.
#[derive(Clone, Copy, Debug, PartialEq, Eq, PartialOrd, Ord, Hash)]
pub struct Gno(u64);

impl Model for Gno {
    ghost Value = { ℕ };

    ghost view = { λ gno. gno.0 };

    ghost invariant = { λ gno. IsTrue (is_group_number gno.0) };

    ghost inverse = { λ n. record { 0 = n } };
}

impl Gno {
    /// The lowest number of a transaction that has a GTID.
    pub const MIN_GNO: u64 = 1;

    /// The upper bound of group numbers, which all of them are below.
    pub const MAX_GNO: u64 = i64::MAX as u64;

    /// Returns the number.
    pub fn get(self) -> u64
        ensures value { result ≡ self }
        ensures in_range { IsTrue (is_group_number result) }
    {
        self.0
    }
}

/// The error for a number that isn't a group number.
#[derive(Clone, Copy, Debug, PartialEq, Eq, Hash, Error)]
#[error("{0} is neither 0 nor a group number from {min} up to, but not including, {max}", min = Gno::MIN_GNO, max = Gno::MAX_GNO)]
pub struct InvalidGno(pub u64);

impl TryFrom<u64> for Gno {
    type Error = InvalidGno;

    ghost try_from_gives = { λ n r. r ≡ (if is_group_number n then Ok n else Err (record { 0 = n })) };

    fn try_from(number: u64) -> Result<Gno, InvalidGno> {
        if number < Gno::MAX_GNO {
            Ok(Gno(number))
        } else {
            Err(InvalidGno(number))
        }
    }
}

/// Converts the error to the number that was refused.
impl From<InvalidGno> for u64 {
    ghost from_gives = { λ e n. n ≡ e.0 };

    fn from(error: InvalidGno) -> u64 {
        error.0
    }
}
