//! The flags of columns.

ghost use Rattle.std.specs.Prelude.{⊤, [], ◌∷◌, codes};

use bitflags::{Flag, Flags, bitflag_items};

/// The flags of a MySQL column definition. The reader of rows sets `UNSIGNED_FLAG` and
/// `PRI_KEY_FLAG` alone.
#[derive(Clone, Copy, Debug, PartialEq, Eq, Hash)]
pub struct ColumnFlags(u16);

bitflag_items! {
    impl ColumnFlags: u16 {
        const NOT_NULL_FLAG = 1;
        const PRI_KEY_FLAG = 2;
        const UNIQUE_KEY_FLAG = 4;
        const MULTIPLE_KEY_FLAG = 8;
        const BLOB_FLAG = 16;
        const UNSIGNED_FLAG = 32;
        const ZEROFILL_FLAG = 64;
        const BINARY_FLAG = 128;
        const ENUM_FLAG = 256;
        const AUTO_INCREMENT_FLAG = 512;
        const TIMESTAMP_FLAG = 1024;
        const SET_FLAG = 2048;
        const NO_DEFAULT_VALUE_FLAG = 4096;
        const ON_UPDATE_NOW_FLAG = 8192;
        const PART_KEY_FLAG = 16384;
        const NUM_FLAG = 32768;
    }
}

impl Flags for ColumnFlags {
    type Bits = u16;

    ghost exact = { ⊤ };

    ghost table = { (codes "NOT_NULL_FLAG", 1) ∷ (codes "PRI_KEY_FLAG", 2)
        ∷ (codes "UNIQUE_KEY_FLAG", 4) ∷ (codes "MULTIPLE_KEY_FLAG", 8)
        ∷ (codes "BLOB_FLAG", 16) ∷ (codes "UNSIGNED_FLAG", 32)
        ∷ (codes "ZEROFILL_FLAG", 64) ∷ (codes "BINARY_FLAG", 128)
        ∷ (codes "ENUM_FLAG", 256) ∷ (codes "AUTO_INCREMENT_FLAG", 512)
        ∷ (codes "TIMESTAMP_FLAG", 1024) ∷ (codes "SET_FLAG", 2048)
        ∷ (codes "NO_DEFAULT_VALUE_FLAG", 4096) ∷ (codes "ON_UPDATE_NOW_FLAG", 8192)
        ∷ (codes "PART_KEY_FLAG", 16384) ∷ (codes "NUM_FLAG", 32768) ∷ [] };

    ghost set_of = { λ flags. flags.0 };

    fn flags<'a>() -> &'a [Flag<ColumnFlags>] {
        ColumnFlags::FLAGS
    }

    fn bits(&self) -> u16 {
        self.0
    }

    fn from_bits_retain(bits: u16) -> ColumnFlags {
        ColumnFlags(bits)
    }
}
