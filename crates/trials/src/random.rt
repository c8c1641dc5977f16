//! Pseudo-random numbers.
ghost use Rattle.std.specs.Prelude.{◌≤◌};

/// A linear congruence. Not one with that of `examples`, whose constants differ: what is printed is of these waves.
#[derive(Clone, Copy)]
pub struct Random(pub u64);

impl Random {
    /// Thirty-two bits.
    fn bits(&mut self) -> u32 {
        self.0 = self
            .0
            .wrapping_mul(6_364_136_223_846_793_005)
            .wrapping_add(1_442_695_040_888_963_407);
        (self.0 >> 32) as u32
    }

    /// A number from 0 to `most`.
    pub(crate) fn up_to(&mut self, most: u32) -> u32
        ensures { result ≤ most }
    {
        (u64::from(self.bits()) % (u64::from(most) + 1)) as u32
    }

    /// Any sample.
    pub(crate) fn sample(&mut self) -> u16 {
        (self.bits() >> 16) as u16
    }
}
