//! What is read from a serial line, and the reader.
ghost use Rattle.std.specs.Prelude.{Some};
ghost use Rattle.uart.specs.Sound.{Sound};
ghost use Rattle.uart.specs.Word.{word_text};

use std::fmt;

/// A byte as it was read.
#[derive(Clone, Copy, Debug, PartialEq, Eq)]
pub enum Word {
    /// Its stop bit was high.
    Byte(u8),
    /// Its stop bit was low.
    Broken(u8),
}

// By hand, since a derived one does not say what is printed.
impl fmt::Display for Word {
    ghost output = { λ w. Some (word_text w) };

    fn fmt<W: fmt::Write>(&self, f: &mut fmt::Formatter<W>) -> fmt::Result {
        match *self {
            Word::Byte(byte) => write!(f, "byte {byte}"),
            Word::Broken(byte) => write!(f, "broken {byte}"),
        }
    }
}

/// Reads a serial line sample by sample.
#[derive(Clone, Copy)]
pub struct Reader {
    pub(crate) state: State,
    pub ghost sound: { Sound state },
}

/// The settings of a reader, and what it remembers.
#[derive(Clone, Copy)]
pub struct State {
    /// How many samples a bit is.
    pub(crate) bit: u32,
    /// The line that is read.
    pub(crate) line: u32,
    /// Whether a byte is under way. The wait, the look and the bits are no `Option` beside it: a lent memory that says no may hold any of them, and a piece of no samples leaves them as they were.
    pub(crate) busy: bool,
    /// The level before.
    pub(crate) level: bool,
    /// How many samples to wait before the next look.
    pub(crate) wait: u32,
    /// Which look comes next: 0 the start bit, 1 to 8 the data bits, 9 the stop bit. A number, as in the lent memory: the place of the look and the weight of its bit follow from it.
    pub(crate) next: u8,
    /// The data bits so far.
    pub(crate) bits: u8,
}
