//! Random numbers.

// Marsaglia's xorshift of 64 bits.
#[derive(Drop)]
pub struct Xorshift(u64);

impl Xorshift {
    // The numbers from this seed on, which is not 0.
    pub fn new(seed: u64) -> Xorshift {
        Xorshift(seed)
    }

    pub fn next(&mut self) -> u64 {
        self.0 ^= self.0 << 13;
        self.0 ^= self.0 >> 7;
        self.0 ^= self.0 << 17;
        self.0
    }

    // A number below this one, or 0 if this one is 0.
    pub fn below(&mut self, count: u32) -> u32 {
        (self.next() % u64::from(count.max(1))) as u32
    }
}
