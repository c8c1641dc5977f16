//! The lines of a sample.
ghost use Rattle.std.specs.Prelude.{◌≡◌};
ghost use Rattle.samples.specs.Line.{level};

/// Whether a line is high in a sample: line k is bit k, and a line above 15 is low.
pub fn is_high(sample: u16, line: u32) -> bool
    ensures { result ≡ level line sample }
{
    line < 16 && (sample >> line) & 1 == 1
}
