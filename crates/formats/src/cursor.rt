//! The lines of a capture, one after the other.
ghost use Rattle.std.specs.Prelude.{◌≡◌, ◌+◌, ◌^◌, ◌<◌, length};
ghost use Rattle.std.specs.Iterator.{YieldsFirst, item_count};
ghost use Rattle.formats.specs.Text.{lines_of, reading_from};

use crate::line::read_line;
use samples::{Refusal, Run};

/// What is left of a text, and how many lines and samples came before it; nothing is left after a line at fault.
#[derive(Drop)]
pub(crate) struct Lines<'a> {
    rest: &'a [u8],
    line: u64,
    place: u64,
    ghost counted: { line + length rest.now < 2 ^ 64 },
}

impl<'a> Lines<'a> {
    /// All lines of a text, the first of which is line `first`.
    pub(crate) fn new(first: u32, text: &'a [u8]) -> Lines<'a>
        ensures { (result.rest.now ≡ text.now) × (result.line ≡ first) × (result.place ≡ 0) }
    {
        Lines {
            rest: text,
            line: u64::from(first),
            place: 0,
        }
    }
}

impl<'a> Iterator for Lines<'a> {
    type Item = Result<Run, Refusal>;

    ghost next_gives = { YieldsFirst (λ s. reading_from s.line s.place (lines_of s.rest.now)) };

    ghost remaining = { item_count (λ s. reading_from s.line s.place (lines_of s.rest.now)) };

    fn next(&mut self) -> Option<Result<Run, Refusal>> {
        if self.rest.is_empty() {
            return None;
        }
        match read_line(self.rest, self.line, self.place) {
            Ok((run, rest)) => {
                *self = Lines {
                    rest,
                    line: self.line + 1,
                    place: self.place.saturating_add(u64::from(run.count)),
                };
                Some(Ok(run))
            }
            Err(refusal) => {
                self.rest = &[];
                Some(Err(refusal))
            }
        }
    }
}
