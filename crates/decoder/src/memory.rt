//! Why a lent memory is not taken.
ghost use Rattle.std.specs.Prelude.{◌≡◌};
ghost use Rattle.samples.specs.declared.refusal.Refusal.TheVariants.{Memory};

use samples::Refusal;

/// No reader leaves such a memory: the place of the first number at fault.
#[derive(Clone, Copy, Debug, PartialEq, Eq)]
pub struct BadMemory(pub u64);

// By hand, since a derived one does not say which refusal a `?` makes.
impl From<BadMemory> for Refusal {
    ghost from_gives = { λ bad refusal. refusal ≡ Memory bad.0 };

    fn from(bad: BadMemory) -> Refusal {
        Refusal::Memory(bad.0)
    }
}
