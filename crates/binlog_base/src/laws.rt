//! Laws of numbers, strings, formats and packed times. Each is the contract of a function that does
//! nothing.

ghost use Rattle.std.specs.Prelude.{◌≡◌, ℕ, ◌≤◌, List, length, true, false};
ghost use Rattle.binlog_base.specs.Format.{IsExact, sequence, check};
ghost use Rattle.binlog_base.specs.PackedTimes.{time2, datetime2, timestamp2};
ghost use Rattle.binlog_base.specs.Laws.{IsUnambiguous, SpellsOneValue, RefusesForOneReason, RefusesWholesForOneReason, ReadsBack, LenencIsShortest, VarlenIsShortest};

use crate::below::{BytesRepr, Constant, IntRepr, MyDeserialize};

/// States that bytes begin with at most one spelling of a number, and that it spells one number.
pub fn numbers_are_unambiguous<T: IntRepr>()
    ensures { IsUnambiguous T.format }
{}

/// States that the bytes that are written for a number that the kind can hold are read back as that
/// number.
pub fn numbers_read_back<T: IntRepr>()
    ensures { (n : T.Primitive) → T.IsInRange n → ReadsBack T.format (T.spelling n) n }
{}

/// States that the bytes that are written for a constant are read back as that constant, if the
/// kind `U` can hold its number.
pub fn constants_read_back<T: Constant, U: IntRepr<Primitive = T::Number>>()
    ensures { (c : T) → U.IsInRange (T.number_of c)
        → ReadsBack (sequence U.format (λ n. check (T.constant_of n))) (U.spelling (T.number_of c)) c }
{}

/// States that length-encoded numbers and VarLen numbers are written in their shortest form: no
/// fewer bytes spell the number.
pub fn numbers_are_shortest()
    ensures lenenc { LenencIsShortest }
    ensures varlen { VarlenIsShortest }
{}

/// States that the bytes that are written for a string of at most `MAX_LEN` bytes spell it.
pub fn strings_are_spelled<T: BytesRepr>()
    ensures { (text : List ℕ) → length text ≤ T.MAX_LEN → (ctx : T.Ctx)
        × (T.format ctx).spells (T.spelling text) text }
{}

/// States that bytes begin with at most one spelling of a value, and that it spells one value. If a
/// value takes all bytes that are left, the bytes spell at most one value.
#[tactic(auto, using(crate::proofs::Ambiguity::one_spelling_at, crate::proofs::Ambiguity::one_value_to_end))]
pub fn readings_are_unambiguous<'de, T: MyDeserialize<'de>>()
    ensures prefix { T.to_end ≡ false → (ctx : T.Ctx) → IsUnambiguous (T.format ctx) }
    ensures whole { T.to_end ≡ true → (ctx : T.Ctx) → SpellsOneValue (T.format ctx) }
{}

/// States that if bytes are refused, no prefix of them spells a value, and there is one fault,
/// which is none of `Reader`, `Memory`, `NestingTooDeep` and `TooManyValues`. If a value takes all
/// bytes that are left, the bytes as a whole spell no value.
#[tactic(auto, using(crate::proofs::Ambiguity::one_reason_to_end))]
pub fn refusals_have_one_reason<'de, T: MyDeserialize<'de>>()
    ensures prefix { T.to_end ≡ false → (ctx : T.Ctx) → RefusesForOneReason (T.format ctx) }
    ensures whole { T.to_end ≡ true → (ctx : T.Ctx) → RefusesWholesForOneReason (T.format ctx) }
{}

/// States that TIME2, DATETIME2 and TIMESTAMP2 values are read as their bytes spell them, and bytes
/// of which no prefix spells a value are refused with one fault.
pub fn packed_times_are_exact()
    ensures time2 { (decimals : ℕ) → IsExact (time2 decimals) }
    ensures datetime2 { (decimals : ℕ) → IsExact (datetime2 decimals) }
    ensures timestamp2 { (decimals : ℕ) → IsExact (timestamp2 decimals) }
{}
