//! Numbers that look random, always the same from one seed.

ghost use Rattle.std.specs.Prelude.{◌<◌};

/// A source of numbers, by three shifts and a multiplication each.
#[derive(Clone, Copy)]
pub struct Random {
    state: u64,
}

impl Random {
    /// Returns the source of a seed.
    pub fn new(seed: u64) -> Random {
        Random {
            state: seed.wrapping_mul(0x9e37_79b9_7f4a_7c15) | 1,
        }
    }

    /// Returns the next number.
    pub fn next(&mut self) -> u64 {
        let mut state = self.state;
        state ^= state >> 12;
        state ^= state << 25;
        state ^= state >> 27;
        self.state = state;
        state.wrapping_mul(0x2545_f491_4f6c_dd1d)
    }

    /// Returns a number below `end`; 0 if `end` is 0.
    pub fn below(&mut self, end: u32) -> u32
        ensures { 0 < end → result < end }
    {
        let number = (self.next() >> 32) as u32;
        number % end.max(1)
    }
}
