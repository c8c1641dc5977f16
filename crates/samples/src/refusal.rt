//! Why an entry answers with a refusal.
ghost use Rattle.std.specs.Prelude.{◌≡◌};
ghost use Rattle.samples.specs.Refusal.{number_of, place_of};

/// Why something is refused, and where. Places count from 0; that of `Room` is how much there is.
#[derive(Clone, Copy, Debug, PartialEq, Eq)]
pub enum Refusal {
    /// A setting out of its range: which one.
    Setting(u64),
    /// A memory that no reader leaves: the first number at fault.
    Memory(u64),
    /// Too many samples, or one above 65,535: the first at fault.
    Samples(u64),
    /// Too little room: how many numbers it holds.
    Room(u64),
    /// A text that cannot be read: the line.
    Text(u64),
}

impl Refusal {
    /// The number of the refusal in the list of refusals, which programs print.
    pub fn number(self) -> u64
        ensures { result ≡ number_of self }
    {
        match self {
            Refusal::Setting(_) => 1,
            Refusal::Memory(_) => 2,
            Refusal::Samples(_) => 3,
            Refusal::Room(_) => 4,
            Refusal::Text(_) => 5,
        }
    }

    /// Where, as the case says.
    pub fn place(self) -> u64
        ensures { result ≡ place_of self }
    {
        match self {
            Refusal::Setting(place)
            | Refusal::Memory(place)
            | Refusal::Samples(place)
            | Refusal::Room(place)
            | Refusal::Text(place) => place,
        }
    }
}
