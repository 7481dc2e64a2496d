//! Nanoseconds below one second.
ghost use Rattle.std.specs.Prelude.{◌≡◌, ◌<◌, refl, MatchOption};
ghost use Rattle.bitcode_shapes.specs.LeafData.{nanosecond_data};

use crate::shaped::Shaped;

const NANOSECONDS_IN_SECOND: u32 = 1_000_000_000;

/// The nanoseconds of a `Duration`, below one second.
#[derive(Clone, Copy)]
pub struct Nanosecond {
    nanos: u32,
    ghost below_one_second: { nanos < 1000000000 },
}

impl Nanosecond {
    /// The nanoseconds, or `None` if they make up a second.
    pub fn new(nanos: u32) -> Option<Nanosecond>
        ensures { MatchOption result (nanos < 1000000000 → ⊥)
            (λ t. (nanos < 1000000000) × (t.nanos ≡ nanos)) }
    {
        if nanos < NANOSECONDS_IN_SECOND {
            Some(Nanosecond { nanos })
        } else {
            None
        }
    }

    /// The number of nanoseconds.
    pub fn into_inner(self) -> u32
        ensures value { result ≡ self.nanos }
        ensures below { result < 1000000000 }
    {
        self.nanos
    }
}

impl Shaped for Nanosecond {
    ghost data = { nanosecond_data (λ t. t.nanos)
        (λ n h. (record { nanos = n; below_one_second = h }, refl)) };

    fn told(&self) {
        let _nanos = self.into_inner();
    }
}
