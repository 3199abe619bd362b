//! Random numbers from a seed.

/// Where the numbers stand.
#[derive(Clone, Copy)]
pub struct Draws {
    x: u64,
}

impl Draws {
    pub fn new(seed: u64) -> Draws {
        Draws { x: seed }
    }

    /// The next number below `k`; 0 where `k` is 0.
    pub fn below(&mut self, k: u64) -> u64 {
        self.x = self
            .x
            .wrapping_mul(6_364_136_223_846_793_005)
            .wrapping_add(1_442_695_040_888_963_407);
        if k == 0 {
            return 0;
        }
        (self.x >> 33) % k
    }
}
