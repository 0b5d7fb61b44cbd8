//! Proved facts about decimals and binary JSON, each written as the contract of a function that
//! does nothing.

ghost use Rattle.std.specs.Prelude.{◌≡◌, ◌≤◌, ◌*◌, ℕ, Bool, Result, length};
ghost use Rattle.binlog_base.specs.declared.fault.Fault.{Fault};
ghost use Rattle.binlog_base.specs.Format.{IsExact};
ghost use Rattle.binlog_values.specs.JsonbValues.{Frame, JsonbValue, nested, element};
ghost use Rattle.binlog_values.specs.JsonbDocuments.{document_of, layer, weight};
ghost use Rattle.binlog_values.specs.JsonbHeaders.{headers, AreDisjoint, IsWhole};
ghost use Rattle.binlog_values.specs.JsonbParsed.{document};
ghost use Rattle.binlog_values.specs.JsonbLaws.{ContainersAreInParents, ContainersAreShorter};
ghost use Rattle.binlog_values.specs.JsonbLaws.{ContainersAreInRoots, RootsAreInDocuments};
ghost use Rattle.binlog_values.specs.JsonbLaws.{HeadersAreLong, ContainersAreWhole, RootsAreWhole};
ghost use Rattle.binlog_values.specs.JsonbLaws.{InnerContainersAreWhole};
ghost use Rattle.binlog_values.specs.JsonbLaws.{NumbersAddUp, PositionsAreEntries};
ghost use Rattle.binlog_values.specs.JsonbLaws.{EntriesArePositions, PathsAreOne};
ghost use Rattle.binlog_values.specs.JsonbLaws.{EntriesAreElements, PositionsAreValues};
ghost use Rattle.binlog_values.specs.JsonbLaws.{FaultsAreAtNumbers, FaultsAreFirst};

pub use binlog_decimal::laws::{
    decimals_are_ordered_as_numbers, decimals_are_packed_in_range, equal_decimals_are_packed_alike,
    packed_decimals_are_exact, packed_decimals_read_back, printed_decimals_read_back,
    texts_are_numerals,
};

/// States that the bytes of a container determine each of its elements, or the element's fault.
#[tactic(auto, using(crate::specs::Lemmas::JsonbValues::exact_element))]
pub fn elements_are_exact()
    ensures { (c : Frame) (i : ℕ) → IsExact (element c i) }
{}

/// States that the document of what is read is one level, with the documents of its entries below
/// it.
#[tactic(auto, using(crate::proofs::JsonbUnfolding::document_is))]
pub fn documents_unfold()
    ensures { (r : Result JsonbValue Fault) → document_of r ≡ layer document_of r }
{}

/// States that if no two headers of a document's containers share a byte, the root container has at
/// least three bytes for each value inside it.
#[tactic(auto, using(crate::proofs::JsonbCounting::three_bytes_each))]
pub fn three_bytes_for_a_value()
    ensures { (c : Frame) → IsWhole c → AreDisjoint (headers 0 (document (nested c)))
        → 3 * weight (document (nested c)) ≤ length c.bytes }
{}

/// States that a container inside another is a part of its bytes: the part that begins at the
/// offset in its entry. It is shorter than the other. So each container of a document, at any
/// depth, is a part of the root's bytes, and the root is a part of the bytes that are read.
pub fn containers_are_inside()
    ensures parent { ContainersAreInParents }
    ensures shorter { ContainersAreShorter }
    ensures root { ContainersAreInRoots }
    ensures document { RootsAreInDocuments }
{}

/// States that the header of a container (the count, the size and the entries) has at least four
/// bytes, and three more for each entry, whether the container is small or large, an array or an
/// object. A container that is read has its whole header, and so has each container inside it.
pub fn headers_are_long()
    ensures long { HeadersAreLong }
    ensures whole { ContainersAreWhole }
    ensures document { RootsAreWhole }
    ensures inner { InnerContainersAreWhole }
{}

/// States what the number of a position is. The root has number 0. The number of any other position
/// is its container's number, plus one, plus, for each entry before it in that container, one and
/// that entry's weight: how many values are inside it.
///
/// There is a position for each value inside the root, and one for the root. Each position but the
/// root is that of an entry of a container, each entry has a position, and no two positions have
/// the same path.
pub fn numbers_add_up()
    ensures number { NumbersAddUp }
    ensures count { PositionsAreValues }
    ensures entry { PositionsAreEntries }
    ensures position { EntriesArePositions }
    ensures path { PathsAreOne }
{}

/// States that the entries in the document of a container are its entries, each with its key and
/// the document of its element.
#[tactic(auto, using(crate::proofs::JsonbNumbers::entries_elements))]
pub fn entries_are_elements()
    ensures { EntriesAreElements }
{}

/// States that the first fault of a document comes with the number of a position, whose fault it is,
/// and that no position before it has one.
pub fn first_faults_have_numbers()
    ensures there { FaultsAreAtNumbers }
    ensures first { FaultsAreFirst }
{}
