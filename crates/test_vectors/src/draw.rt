ghost use Rattle.std.specs.Prelude.{◌<◌};

/// Numbers that look random, and are the same in each run (a linear congruential generator).
#[derive(Drop)]
pub struct Draw {
    state: u64,
}

impl Draw {
    /// The numbers that this one leads to.
    pub fn new(seed: u64) -> Self {
        Draw { state: seed }
    }

    /// The next number, which is below `bound`.
    pub fn below(&mut self, bound: usize) -> usize
        requires { 0 < bound }
        ensures { result < bound }
    {
        self.state = self
            .state
            .wrapping_mul(6_364_136_223_846_793_005)
            .wrapping_add(1_442_695_040_888_963_407);
        ((self.state >> 33) % bound as u64) as usize
    }
}
