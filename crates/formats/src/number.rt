//! Decimal numbers in a text.
ghost use Rattle.std.specs.Prelude.{MatchOption};
ghost use Rattle.formats.specs.Number.{NoDigit, FrontTo};

/// The largest number that is read exactly.
const EXACT: u32 = 1_000_000;

/// The number that the digits at the front of a text write, or one above 1,000,000 where it is larger, and what follows them; nothing where there is no digit.
pub fn read_number(text: &[u8]) -> Option<(u32, &[u8])>
    ensures { MatchOption result (NoDigit text.now) (λ p. FrontTo 1000000 text.now p.0 p.1.now × NoDigit p.1.now) }
{
    let [digit @ b'0'..=b'9', rest @ ..] = text else {
        return None;
    };
    let mut number = u32::from(*digit - b'0');
    let mut rest = rest;
    while let [digit @ b'0'..=b'9', after @ ..] = rest {
        // A larger number stays as it is, so that it fits.
        if number <= EXACT {
            number = number * 10 + u32::from(*digit - b'0');
        }
        rest = after;
    }
    Some((number, rest))
}
