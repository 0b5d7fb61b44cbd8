//! The integer types that hold numbers of one to eight bytes. Other crates can't name these traits.

ghost use Rattle.std.specs.Prelude.{◌≡◌, length, ◌≤◌, ℕ};
ghost use Rattle.std.proofs.Common.{lit≤};
ghost use Rattle.binlog_base.specs.Coding.{Coding, lowest_bytes, HasRoom};
ghost use Rattle.binlog_base.specs.Codings.{unsigned_coding, signed_coding};

use byteorder::ByteOrder;

/// An integer type, which holds numbers of up to `SIZE` bytes.
pub trait Integer: Copy {
    /// How many bytes the type has.
    const SIZE: usize;

    ghost SIZE: { ℕ };

    /// Which number the bits of up to `SIZE` bytes give, and which bits a number has.
    ghost coding: { Coding Self SIZE };

    /// Returns the number in the first `width` bytes, in the byte order `O`; 0 where `width` is 0.
    fn read<O: ByteOrder>(bytes: &[u8], width: usize) -> Self
        requires most { width ≤ SIZE }
        requires there { width ≤ length bytes.now }
        ensures value { result ≡ coding.value width (O.number_of width bytes.now) }
        ensures fits { coding.Fits width result };

    /// Returns the bits of the number's lowest `width` bytes.
    fn low_bits(self, width: usize) -> u64
        ensures { result ≡ coding.bits width self };
}

/// An integer type that holds all numbers of `W` bytes.
pub trait Holds<const W: usize>: Integer {
    ghost room: { HasRoom Self.SIZE W };
}

// Returns the lowest `width` bytes of a number.
#[tactic(auto, using(crate::specs::Lemmas::Powers::below_8, crate::specs::Lemmas::Powers::some_power, crate::specs::Lemmas::Coding::all_told))]
fn lowest_bytes(number: u64, width: usize) -> u64
    ensures { result ≡ lowest_bytes width number }
{
    if width < 8 {
        number % 256u64.pow(width as u32)
    } else {
        number
    }
}

impl Integer for u64 {
    ghost SIZE = { 8 };

    ghost coding = { unsigned_coding 8 (lit≤ tt) };

    const SIZE: usize = 8;

    fn read<O: ByteOrder>(bytes: &[u8], width: usize) -> u64 {
        if width == 0 {
            return 0;
        }
        O::read_uint(bytes, width)
    }

    fn low_bits(self, width: usize) -> u64 {
        lowest_bytes(self, width)
    }
}

impl Integer for i64 {
    ghost SIZE = { 8 };

    ghost coding = { signed_coding 8 (lit≤ tt) };

    const SIZE: usize = 8;

    fn read<O: ByteOrder>(bytes: &[u8], width: usize) -> i64 {
        if width == 0 {
            return 0;
        }
        O::read_int(bytes, width)
    }

    fn low_bits(self, width: usize) -> u64 {
        lowest_bytes(self.cast_unsigned(), width)
    }
}

impl Integer for u32 {
    ghost SIZE = { 4 };

    ghost coding = { unsigned_coding 4 (lit≤ tt) };

    const SIZE: usize = 4;

    #[tactic(auto, using(crate::specs::Lemmas::Powers::most_4))]
    fn read<O: ByteOrder>(bytes: &[u8], width: usize) -> u32 {
        u64::read::<O>(bytes, width) as u32
    }

    fn low_bits(self, width: usize) -> u64 {
        lowest_bytes(u64::from(self), width)
    }
}

impl Integer for u16 {
    ghost SIZE = { 2 };

    ghost coding = { unsigned_coding 2 (lit≤ tt) };

    const SIZE: usize = 2;

    #[tactic(auto, using(crate::specs::Lemmas::Powers::most_2))]
    fn read<O: ByteOrder>(bytes: &[u8], width: usize) -> u16 {
        u64::read::<O>(bytes, width) as u16
    }

    fn low_bits(self, width: usize) -> u64 {
        lowest_bytes(u64::from(self), width)
    }
}

impl Integer for u8 {
    ghost SIZE = { 1 };

    ghost coding = { unsigned_coding 1 (lit≤ tt) };

    const SIZE: usize = 1;

    #[tactic(auto, using(crate::specs::Lemmas::Powers::most_1))]
    fn read<O: ByteOrder>(bytes: &[u8], width: usize) -> u8 {
        u64::read::<O>(bytes, width) as u8
    }

    fn low_bits(self, width: usize) -> u64 {
        lowest_bytes(u64::from(self), width)
    }
}

impl Integer for i32 {
    ghost SIZE = { 4 };

    ghost coding = { signed_coding 4 (lit≤ tt) };

    const SIZE: usize = 4;

    fn read<O: ByteOrder>(bytes: &[u8], width: usize) -> i32 {
        i64::read::<O>(bytes, width) as i32
    }

    fn low_bits(self, width: usize) -> u64 {
        lowest_bytes(i64::from(self).cast_unsigned(), width)
    }
}

impl Integer for i16 {
    ghost SIZE = { 2 };

    ghost coding = { signed_coding 2 (lit≤ tt) };

    const SIZE: usize = 2;

    fn read<O: ByteOrder>(bytes: &[u8], width: usize) -> i16 {
        i64::read::<O>(bytes, width) as i16
    }

    fn low_bits(self, width: usize) -> u64 {
        lowest_bytes(i64::from(self).cast_unsigned(), width)
    }
}

impl Integer for i8 {
    ghost SIZE = { 1 };

    ghost coding = { signed_coding 1 (lit≤ tt) };

    const SIZE: usize = 1;

    fn read<O: ByteOrder>(bytes: &[u8], width: usize) -> i8 {
        i64::read::<O>(bytes, width) as i8
    }

    fn low_bits(self, width: usize) -> u64 {
        lowest_bytes(i64::from(self).cast_unsigned(), width)
    }
}

impl Holds<1> for u8 {
    ghost room = { record { some = lit≤ tt; most = lit≤ tt } };
}

impl Holds<2> for u16 {
    ghost room = { record { some = lit≤ tt; most = lit≤ tt } };
}

impl Holds<3> for u32 {
    ghost room = { record { some = lit≤ tt; most = lit≤ tt } };
}

impl Holds<4> for u32 {
    ghost room = { record { some = lit≤ tt; most = lit≤ tt } };
}

impl Holds<5> for u64 {
    ghost room = { record { some = lit≤ tt; most = lit≤ tt } };
}

impl Holds<6> for u64 {
    ghost room = { record { some = lit≤ tt; most = lit≤ tt } };
}

impl Holds<8> for u64 {
    ghost room = { record { some = lit≤ tt; most = lit≤ tt } };
}

impl Holds<1> for i8 {
    ghost room = { record { some = lit≤ tt; most = lit≤ tt } };
}

impl Holds<2> for i16 {
    ghost room = { record { some = lit≤ tt; most = lit≤ tt } };
}

impl Holds<3> for i32 {
    ghost room = { record { some = lit≤ tt; most = lit≤ tt } };
}

impl Holds<4> for i32 {
    ghost room = { record { some = lit≤ tt; most = lit≤ tt } };
}

impl Holds<6> for i64 {
    ghost room = { record { some = lit≤ tt; most = lit≤ tt } };
}

impl Holds<8> for i64 {
    ghost room = { record { some = lit≤ tt; most = lit≤ tt } };
}
