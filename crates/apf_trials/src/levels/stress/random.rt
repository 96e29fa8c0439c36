//! Numbers that look random, and are the same ones for the same seed.

ghost use Rattle.std.specs.Prelude.{◌<◌};

/// A source of numbers.
#[derive(Clone, Copy)]
pub struct Random {
    state: u64,
}

impl Random {
    /// The source of this part of a seed.
    pub fn new(seed: u64, part: u64) -> Random {
        let mut random = Random {
            state: seed.wrapping_mul(0xD1B5_4A32_D192_ED03) ^ part,
        };
        random.next();
        random
    }

    /// The next number, by the generator splitmix64.
    pub fn next(&mut self) -> u64 {
        self.state = self.state.wrapping_add(0x9E37_79B9_7F4A_7C15);
        let first = (self.state ^ (self.state >> 30)).wrapping_mul(0xBF58_476D_1CE4_E5B9);
        let second = (first ^ (first >> 27)).wrapping_mul(0x94D0_49BB_1331_11EB);
        second ^ (second >> 31)
    }

    /// A number below this one.
    pub fn below(&mut self, end: u64) -> u64
        requires { 0 < end }
        ensures { result < end }
    {
        self.next() % end
    }

    /// True once in this many times.
    pub fn is_one_in(&mut self, times: u64) -> bool
        requires { 0 < times }
    {
        self.below(times) == 0
    }
}
