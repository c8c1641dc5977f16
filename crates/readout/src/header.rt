//! The header line of a text.
ghost use Rattle.std.specs.Option.{MatchOption};
ghost use Rattle.readout.specs.Header.{Header, NoHeader};

use formats::two_numbers;

/// What a header asks for: a serial line, and how many samples a bit is.
#[derive(Clone, Copy, Debug, PartialEq, Eq)]
pub enum Settings {
    Serial { line: u32, bit: u32 },
}

/// The settings of the header that a text begins with, and what follows that line; nothing where there is none. Their ranges are the caller's to check.
pub fn read_header(text: &[u8]) -> Option<(Settings, &[u8])>
    ensures { MatchOption result (NoHeader text.now) (λ p. Header text.now p.0 p.1.now) }
{
    let rest = text.strip_prefix(b"serial line ")?;
    let (line, bit, after) = two_numbers(rest, b" bit ")?;
    Some((Settings::Serial { line, bit }, after))
}
