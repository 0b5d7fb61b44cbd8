//! MySQL's packed DECIMAL format, made group by group.

ghost use Rattle.std.specs.Prelude.{◌≡◌, ◌≤◌, ◌<◌, ◌+◌, [], length, MatchOption, OnOk, IfErr};
ghost use Rattle.std.specs.Int.Digits.{AllBelowBase};
ghost use Rattle.std.specs.Io.KnownBytes.{Appends};
ghost use Rattle.std.specs.Iterator.{YieldsFirstBy, item_count, at_most};
ghost use Rattle.binlog_base.specs.declared.fault.Fault.TheVariants.{Reader};
ghost use Rattle.binlog_base.specs.Failures.{CountsFailure};
ghost use Rattle.binlog_decimal.specs.Decimals.{group_bytes, packed_bytes};
ghost use Rattle.binlog_decimal.specs.DecimalMasks.{masked_bytes};
ghost use Rattle.binlog_decimal.specs.Workings.DecimalPacking.{group_left, plain_left, groups_left, packed_left, AreDigits, TakesDigits, TakesGroup};

use super::group::{group_width, number_of_digits};
use super::mask::mask;
use super::{DIG_PER_DEC, Decimal};
use binlog_base::below::{Sink, write_all};
use binlog_base::fault::Fault;

// The packed bytes of a group: the last of four bytes, from `start` on.
#[derive(Clone, Copy)]
pub(super) struct Group {
    bytes: [u8; 4],
    start: usize,
}

impl Group {
    // Packs a group of digits. `first` says that it is at the start of the packed form.
    fn new(digits: &[u8], negative: bool, first: bool) -> Group
        requires some { 0 < length digits.now }
        requires most { length digits.now ≤ 9 }
        requires below { AllBelowBase 10 digits.now }
        ensures bytes { group_left result ≡ masked_bytes negative first (group_bytes digits.now) }
        ensures some { result.start < 4 }
    {
        let mut bytes = number_of_digits(digits).to_be_bytes();
        let start = 4 - group_width(digits.len());
        mask(negative, first, &mut bytes[start..]);
        Group { bytes, start }
    }

    // Returns the packed bytes.
    fn as_bytes(&self) -> &[u8]
        requires { self.now.start < 4 }
        ensures { result.now ≡ group_left self.now }
    {
        &self.bytes[self.start..]
    }
}

// The groups of a packed form: those of the digits before the point, and then those of the digits
// after it. `first` says that no byte came before them.
#[derive(Clone, Copy)]
pub(super) struct Groups<'a> {
    negative: bool,
    first: bool,
    integer: &'a [u8],
    fraction: &'a [u8],
}

impl<'a> Groups<'a> {
    // Takes the digits of the next group.
    fn next_digits(&mut self) -> Option<&'a [u8]>
        requires { AreDigits self.old }
        ensures { MatchOption result ((plain_left self.old ≡ []) × (self.new ≡ self.old))
            (λ digits. TakesDigits self.old digits.now self.new) }
    {
        if !self.integer.is_empty() {
            let (group, rest) = self
                .integer
                .split_at((self.integer.len() - 1) % DIG_PER_DEC + 1);
            self.integer = rest;
            Some(group)
        } else if !self.fraction.is_empty() {
            let (group, rest) = self.fraction.split_at(self.fraction.len().min(DIG_PER_DEC));
            self.fraction = rest;
            Some(group)
        } else {
            None
        }
    }
}

impl<'a> Iterator for Groups<'a> {
    type Item = Group;

    ghost can_next = { AreDigits };

    ghost next_gives = { TakesGroup };

    ghost remaining = { λ s. at_most (length s.integer.now + length s.fraction.now) };

    fn next(&mut self) -> Option<Group> {
        let digits = self.next_digits()?;
        let first = self.first;
        self.first = false;
        Some(Group::new(digits, self.negative, first))
    }
}

// The bytes of a packed form, one by one.
#[derive(Clone, Copy)]
pub(super) struct PackedBytes<'a> {
    group: Group,
    groups: Groups<'a>,
}

impl<'a> Iterator for PackedBytes<'a> {
    type Item = u8;

    ghost can_next = { λ s. AreDigits s.groups };

    ghost next_gives = { YieldsFirstBy (λ byte. byte) packed_left };

    ghost remaining = { item_count packed_left };

    fn next(&mut self) -> Option<u8> {
        if self.group.start >= 4 {
            self.group = self.groups.next()?;
        }
        let byte = self.group.bytes[self.group.start];
        self.group.start += 1;
        Some(byte)
    }
}

impl Decimal {
    // Returns the groups of the packed form.
    fn groups(&self) -> Groups<'_>
        ensures digits { AreDigits result }
        ensures bytes { groups_left result ≡ packed_bytes self.now }
    {
        let (integer, fraction) = self.digits.split_at(self.before);
        Groups {
            negative: self.negative,
            first: true,
            integer,
            fraction,
        }
    }

    // Returns the bytes of the packed form.
    pub(super) fn packed_bytes(&self) -> PackedBytes<'_>
        ensures digits { AreDigits result.groups }
        ensures bytes { packed_left result ≡ packed_bytes self.now }
    {
        PackedBytes {
            group: Group {
                bytes: [0; 4],
                start: 4,
            },
            groups: self.groups(),
        }
    }

    /// Writes the decimal in MySQL's packed DECIMAL format.
    ///
    /// The digits are cut into groups of nine, counted from the point in both directions. Each
    /// group is a big-endian number, of as many bytes as `DIG_TO_BYTES` gives. All bits of a
    /// negative decimal are inverted, and then the first bit is flipped.
    ///
    /// The only fault is `Reader`, if `writer` fails.
    pub fn write_bin<S: Sink>(&self, writer: &mut S) -> Result<(), Fault>
        ensures bytes { OnOk result (Appends (S.contents writer.old) (S.contents writer.new) (packed_bytes
            self.now)) }
        ensures faults { IfErr result (λ e. e ≡ Reader) }
        ensures counts { CountsFailure result (S.failures writer.old) (S.failures writer.new) }
    {
        for group in self.groups() {
            write_all(writer, group.as_bytes())?;
        }
        Ok(())
    }
}
