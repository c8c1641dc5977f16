//! Pseudo-random numbers for tests.
ghost use Rattle.std.specs.Prelude.{◌≤◌};

/// A linear congruence. Not one with that of `trials`, whose constants differ: tests keep the numbers that they try.
#[derive(Clone, Copy)]
pub struct Random(pub u32);

impl Random {
    /// A number from 0 to `most`.
    pub(crate) fn up_to(&mut self, most: u16) -> u16
        ensures { result ≤ most }
    {
        self.0 = self.0.wrapping_mul(1_664_525).wrapping_add(1_013_904_223);
        ((self.0 >> 16) % (u32::from(most) + 1)) as u16
    }
}
