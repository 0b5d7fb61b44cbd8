//! Compares decimals by their packed bytes.

ghost use Rattle.std.specs.Prelude.{◌≡◌, length, Some, refl};
ghost use Rattle.std.specs.Ordering.{nat_cmp};
ghost use Rattle.std.specs.Cmp.{on_per, on_equiv, on_po, on_total, partial_equiv_from_equiv};
ghost use Rattle.std.specs.Cmp.Lexicographic.{pointwise, slice_cmp, nat_list_eq_equiv, nat_list_cmp_total, texts_ties, texts_po};
ghost use Rattle.binlog_decimal.specs.Decimals.{packed_bytes};

use super::Decimal;
use std::cmp::Ordering;

/// Two decimals are equal if their packed forms are the same.
impl PartialEq for Decimal {
    ghost use Rattle.std.specs.Prelude.{nat_eq};

    ghost eq = { λ x y. pointwise nat_eq (packed_bytes x) (packed_bytes y) };

    ghost laws = { on_per packed_bytes (partial_equiv_from_equiv nat_list_eq_equiv) };

    fn eq(&self, other: &Decimal) -> bool {
        self.cmp(other).is_eq()
    }
}

impl Decimal {
    // Compares decimals that have as many digits before the point, and as many after it: by their
    // signs, and then by their digits.
    fn cmp_digits(&self, other: &Decimal) -> Ordering
        requires before { length self.now.integer ≡ length other.now.integer }
        requires after { length self.now.fraction ≡ length other.now.fraction }
        ensures { result ≡ slice_cmp nat_cmp (packed_bytes self.now) (packed_bytes other.now) }
    {
        if !self.negative {
            if other.negative {
                Ordering::Greater
            } else {
                self.digits.cmp(&other.digits)
            }
        } else if other.negative {
            other.digits.cmp(&self.digits)
        } else {
            Ordering::Less
        }
    }
}

impl Eq for Decimal {
    ghost laws = { on_equiv packed_bytes nat_list_eq_equiv };
}

impl PartialOrd for Decimal {
    ghost partial_cmp = { λ x y. Some (slice_cmp nat_cmp (packed_bytes x) (packed_bytes y)) };

    ghost laws = { on_po packed_bytes texts_po };

    fn partial_cmp(&self, other: &Decimal) -> Option<Ordering> {
        Some(self.cmp(other))
    }
}

/// The order of the packed forms, byte by byte. If one form is a prefix of the other, the shorter
/// one is the lesser.
///
/// This is the order of the numbers if both decimals have the same number of digits before the
/// point and the same number of digits after it, with negative zero just below zero.
impl Ord for Decimal {
    ghost cmp = { λ x y. slice_cmp nat_cmp (packed_bytes x) (packed_bytes y) };

    ghost total = { on_total packed_bytes nat_list_cmp_total };

    ghost matches_partial_cmp = { λ x y. refl };

    ghost matches_eq = { λ x y. texts_ties (packed_bytes x) (packed_bytes y) };

    fn cmp(&self, other: &Decimal) -> Ordering {
        if self.before == other.before && self.digits.len() == other.digits.len() {
            return self.cmp_digits(other);
        }
        self.packed_bytes().cmp(other.packed_bytes())
    }
}
