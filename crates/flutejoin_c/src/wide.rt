//! Numbers of 128 bits as C has them: two of 64.
ghost use Rattle.std.specs.Prelude.{◌≡◌};
ghost use Rattle.flutejoin_c.specs.Names.{wide};

/// A number below 2^128, in two halves.
#[repr(C)]
#[derive(Clone, Copy)]
pub struct Wide {
    /// The number divided by 2^64.
    pub high: u64,
    /// The rest.
    pub low: u64,
}

impl Wide {
    /// The halves of a number.
    pub fn of(number: u128) -> Wide
        ensures { wide result ≡ number }
    {
        Wide {
            high: (number >> 64) as u64,
            low: (number % (1 << 64)) as u64,
        }
    }

    /// The number.
    pub fn number(&self) -> u128
        ensures { result ≡ wide self.now }
    {
        (u128::from(self.high) << 64) + u128::from(self.low)
    }
}
