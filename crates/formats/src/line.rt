//! Lines of two numbers, as those of a capture.
ghost use Rattle.std.specs.Prelude.{ℕ, ◌<◌, List, length, MatchOption, MatchResult};
ghost use Rattle.formats.specs.Number.{Ends, TwoNumbers, NoTwoNumbers};
ghost use Rattle.formats.specs.Internal.{FirstLine};

use crate::number::read_number;
use samples::{Refusal, Run};

/// The two numbers that the first line writes with `between` between them, as `read_number` reads them, and what follows that line; nothing where it is another line.
pub fn two_numbers<'a>(text: &'a [u8], between: &[u8]) -> Option<(u32, u32, &'a [u8])>
    ensures { MatchOption result (NoTwoNumbers text.now between.now) (λ p. TwoNumbers text.now between.now p.0 p.1 p.2.now) }
{
    let (first, rest) = read_number(text)?;
    let (second, rest) = read_number(rest.strip_prefix(between)?)?;
    Some((first, second, end_line(rest)?))
}

/// What follows where a line ends here, at a newline or at the end of the text; nothing where it goes on.
pub fn end_line(rest: &[u8]) -> Option<&[u8]>
    ensures { MatchOption result ((after : List ℕ) → Ends rest.now after → ⊥) (λ after. Ends rest.now after.now) }
{
    match rest {
        [] => Some(rest),
        [b'\n', after @ ..] => Some(after),
        _ => None,
    }
}

/// The run of the first line of a text that is not empty, and what follows that line; `line` lines and `place` samples come before it.
pub(crate) fn read_line(text: &[u8], line: u64, place: u64) -> Result<(Run, &[u8]), Refusal>
    requires { 0 < length text.now }
    ensures { MatchResult result (λ p. FirstLine line place text.now (Ok p.0) p.1.now) (λ f. (after : List ℕ) × FirstLine line place text.now (Err f) after) }
{
    // Each refusal stands beside its test: with `ok_or` and `map_err` the three lines would be no shorter.
    let Some((sample, count, after)) = two_numbers(text, b" ") else {
        return Err(Refusal::Text(line));
    };
    let Ok(count @ 1..) = u16::try_from(count) else {
        return Err(Refusal::Text(line));
    };
    let Ok(sample) = u16::try_from(sample) else {
        return Err(Refusal::Samples(place));
    };
    Ok((Run { sample, count }, after))
}
