//! Proved facts about decimals, each written as the contract of a function that does nothing.

ghost use Rattle.std.specs.Prelude.{ℕ, Bool};
ghost use Rattle.binlog_base.specs.Format.{IsExact};
ghost use Rattle.binlog_decimal.specs.PackedDecimals.{packed_decimal, counted_decimal};
ghost use Rattle.binlog_decimal.specs.DecimalLaws.{PackedReadsBack, PackedHasSize, EqualWherePackedAlike, OrderedAsNumbers, PrintedReadsBack, PackedWhereInRange, TextsAreNumerals};

/// States that if a prefix of some bytes is a packed decimal, that decimal is read from them.
/// Otherwise reading fails, and the bytes determine the fault.
pub fn packed_decimals_are_exact()
    ensures decimal { (precision scale : ℕ) (keep : Bool) → IsExact (packed_decimal precision scale keep) }
    ensures counted { (keep : Bool) → IsExact (counted_decimal keep) }
{}

/// States that a decimal that is written in packed form is read back as the same decimal: the sign,
/// the digits, and how many digits are before and after the point. The packed form has the expected
/// size.
pub fn packed_decimals_read_back()
    ensures again { PackedReadsBack }
    ensures size { PackedHasSize }
{}

/// States that two decimals compare as equal if and only if their packed forms are the same.
pub fn equal_decimals_are_packed_alike()
    ensures { EqualWherePackedAlike }
{}

/// States that decimals with the same number of digits before the point and the same number after
/// it are ordered as their numbers, with negative zero just below zero.
#[tactic(auto, using(crate::proofs::DecimalOrders::ordered_as_numbers))]
pub fn decimals_are_ordered_as_numbers()
    ensures { OrderedAsNumbers }
{}

/// States that if a decimal was read from a text, its printed text can be read again, and gives the
/// same number with the same digits after the point.
pub fn printed_decimals_read_back()
    ensures { PrintedReadsBack }
{}

/// States that bytes of the right length are a packed decimal if and only if the number of each
/// group has no more digits than the group.
pub fn decimals_are_packed_in_range()
    ensures { PackedWhereInRange }
{}

/// States that a text is read as a decimal if and only if, once all but one of the zeros at its
/// start are dropped, it is an optional sign, digits, an optional point and digits.
pub fn texts_are_numerals()
    ensures { TextsAreNumerals }
{}
