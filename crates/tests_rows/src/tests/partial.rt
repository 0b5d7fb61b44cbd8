//! JSON cells and partial updates for other tests. Their own tests are in `tests_json`.

/// A diff: the operation REPLACE, the path `$.a`, and the number 7.
pub(super) const REPLACED: &[u8] = &[0, 3, 0x24, 0x2e, 0x61, 3, 5, 7, 0];

/// Shared entries: 14 values in a container of 34 bytes, with the length of the cell before them.
pub(super) const SHARED: &[u8] = &[
    0x23, 0, 0, 0, 2, 2, 0, 0x22, 0, 2, 0x0a, 0, 2, 0x0a, 0, 2, 0, 0x18, 0, 2, 0x0a, 0, 2, 0x0a, 0,
    2, 0, 0x0e, 0, 2, 0x0a, 0, 2, 0x0a, 0, 0, 0, 4, 0,
];

/// A table of two JSON columns.
pub(super) const TABLE: &[u8] = b"\x01\0\0\0\0\0\x01\0\x01d\0\x01t\0\x02\xf5\xf5\x02\x04\x04\x03";

/// A partial update of the second column, which has a diff.
pub(super) const DIFF: &[u8] =
    b"\x01\0\0\0\0\0\x01\0\x02\0\x02\0\x02\x01\x02\0\x05\0\0\0\x02\x03$.a";

/// A partial update of the second column, which has the whole document.
pub(super) const WHOLE: &[u8] = b"\x01\0\0\0\0\0\x01\0\x02\0\x02\0\x02\0\0\x03\0\0\0\x05\x2a\0";

/// A partial update of the second column, which has no diffs.
pub(super) const NO_DIFFS: &[u8] = b"\x01\0\0\0\0\0\x01\0\x02\0\x02\0\x02\x01\x02\0\0\0\0\0";
