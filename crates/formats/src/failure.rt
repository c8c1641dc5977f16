//! Why a text function gives no text.
ghost use Rattle.std.specs.Prelude.{◌≡◌, Some};
ghost use Rattle.formats.specs.declared.failure.Failure.TheVariants.{Memory, Refused};
ghost use Rattle.formats.specs.Message.{meaning_of, message_of};

use samples::Refusal;
use std::alloc::AllocError;
use std::error::Error;
use std::fmt;

/// A refusal, or want of memory.
#[derive(Clone, Copy, Debug, PartialEq, Eq)]
pub enum Failure {
    Memory,
    Refused(Refusal),
}

// Both `From` are by hand, since a derived one does not say which failure a `?` makes.
impl From<AllocError> for Failure {
    ghost from_gives = { λ _ r. r ≡ Memory };

    fn from(_e: AllocError) -> Failure {
        Failure::Memory
    }
}

impl From<Refusal> for Failure {
    ghost from_gives = { λ f r. r ≡ Refused f };

    fn from(refusal: Refusal) -> Failure {
        Failure::Refused(refusal)
    }
}

/// What a refusal means for a text, in words.
fn meaning(refusal: Refusal) -> &'static str
    ensures { result.now ≡ meaning_of refusal }
{
    match refusal {
        Refusal::Setting(_) => "this setting is out of its range; the first is setting 0",
        Refusal::Memory(_) => "no reader leaves such a memory; the first number is number 0",
        Refusal::Samples(_) => "this sample is above 65535; the first is sample 0",
        Refusal::Room(_) => "too little room for what was read",
        Refusal::Text(_) =>
            "this line is not SAMPLE COUNT with a count of 1 to 65535; the first is line 0",
    }
}

// By hand, since a derived one does not say what is printed.
impl fmt::Display for Failure {
    ghost output = { λ e. Some (message_of e) };

    fn fmt<W: fmt::Write>(&self, f: &mut fmt::Formatter<W>) -> fmt::Result {
        match *self {
            Failure::Memory => write!(f, "out of memory"),
            Failure::Refused(refusal) => {
                let number = refusal.number();
                let place = refusal.place();
                let meaning = meaning(refusal);
                write!(f, "refused {number} at {place}: {meaning}")
            }
        }
    }
}

impl Error for Failure {}
