//! A decoder is a machine over samples, and can be kept in a lent memory.
ghost use Rattle.std.specs.Prelude.{◌≡◌, ℕ, ◌≤◌, List, length, Ok, MatchResult, Option, Result};
ghost use Rattle.samples.specs.Roll.{filled};

use crate::memory::BadMemory;

/// Takes one input after the other, and may give an output at each.
pub trait Machine: Copy {
    type Input: Copy;

    type Output: Copy;

    /// What it remembers, and by which settings it goes on.
    type State;

    /// The state that it is in.
    ghost state: { Self → Self.State };

    /// The state after an input.
    ghost step: { Self.State → Self.Input → Self.State };

    /// The output at an input.
    ghost emit: { Self.State → Self.Input → Option Self.Output };

    /// Goes on by an input.
    fn feed(self, input: Self::Input) -> (Self, Option<Self::Output>)
        ensures next { state result.0 ≡ step (state self) input }
        ensures output { result.1 ≡ emit (state self) input };

    /// After an input it is a machine again.
    ghost goes_on: { (m : Self) (x : Self.Input) → (n : Self) × (state n ≡ step (state m) x) };
}

/// Reads samples, and can be kept in a lent memory. Its rules are members one by one, since `step` and `emit` belong to every machine.
pub trait Decoder: Machine<Input = u16> {
    /// How many numbers an output has.
    const WIDTH: usize;

    ghost WIDTH: { ℕ };

    /// An output as numbers.
    ghost encoded: { Self.Output → List ℕ };

    /// How many numbers a memory has.
    ghost size: { ℕ };

    /// The memory that a state leaves.
    ghost saved: { Self.State → List ℕ };

    /// The state that a memory stands for, with the settings of another; or the place at which no reader leaves such a memory.
    ghost restored: { Self.State → List ℕ → Result Self.State ℕ };

    /// Writes an output into the free part of a room.
    fn encode(output: Self::Output, free: &mut [u64])
        requires { WIDTH ≤ length free.old }
        ensures { free.new ≡ filled (encoded output) free.old };

    /// The reader that a memory stands for.
    fn restore(self, memory: &[u64]) -> Result<Self, BadMemory>
        ensures { MatchResult result (λ reader. restored (Self.state self) memory.now ≡ Ok (Self.state reader)) (λ bad. restored (Self.state self) memory.now ≡ Err bad.0) };

    /// Leaves the reader in a memory.
    fn save(self, memory: &mut [u64])
        requires { length memory.old ≡ size }
        ensures { memory.new ≡ saved (Self.state self) };

    ghost sized: { (o : Self.Output) → length (encoded o) ≡ WIDTH };

    /// What is restored is a reader's state, and has the settings that were asked for.
    ghost opens: { (r : Self) (s : Self.State) (m : List ℕ) → restored (Self.state r) m ≡ Ok s → ((q : Self) × (Self.state q ≡ s)) × (length m ≡ size) × ((n : List ℕ) → restored s n ≡ restored (Self.state r) n) };

    /// What is saved is restored as it was.
    ghost back: { (r : Self) → restored (Self.state r) (saved (Self.state r)) ≡ Ok (Self.state r) };

    /// A sample changes no setting.
    ghost same: { (s : Self.State) (x : ℕ) (m : List ℕ) → restored (Self.step s x) m ≡ restored s m };
}
