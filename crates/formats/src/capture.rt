//! Whole captures.
ghost use Rattle.std.specs.Prelude.{◌≡◌, ◌+◌, ◌≤◌, [], ◌∷◌, ◌++◌, decimal, IsOk, string_bytes, string_len, string_capacity, MatchResult};
ghost use Rattle.samples.specs.Runs.{rolled};
ghost use Rattle.formats.specs.Text.{line_of};
ghost use Rattle.formats.specs.Capture.{samples_in, Fails, Writes, Compacts};

use crate::cursor::Lines;
use crate::failure::Failure;
use itoa::Buffer;
use samples::{Run, Runs};
use std::alloc::{AllocError, Global};

/// The runs of the samples that a text stands for; its first line counts as line `first_line`, which is 1 below a header.
pub fn read_capture(alloc: Global, first_line: u32, text: &[u8]) -> Result<Runs, Failure>
    ensures { MatchResult result (λ runs. samples_in first_line text.now ≡ Ok runs.samples) (λ e. Fails first_line e text.now) }
{
    let mut runs = Runs::new(alloc);
    let mut kept = Ok(());
    for run in Lines::new(first_line, text) {
        let run = run?;
        // A line at fault comes before want of memory, however far on it is.
        if kept.is_ok() {
            kept = runs.push(run);
        }
    }
    kept?;
    Ok(runs)
}

/// The most bytes that the line of a run has: two numbers of five digits, a space and a newline.
const LINE_BYTES: usize = 12;

/// Writes a number where there is room for five digits, so that no memory is asked for, and none can be wanting.
#[inline(always)]
fn put_number(out: &mut String, digits: &mut Buffer, number: u16) -> Result<(), AllocError>
    requires { string_len out.old + 5 ≤ string_capacity out.old }
    ensures succeeds { IsOk result }
    ensures bytes { string_bytes out.new ≡ string_bytes out.old ++ decimal number }
    ensures len { string_len out.new ≤ string_len out.old + 5 }
    ensures capacity { string_capacity out.old ≤ string_capacity out.new }
{
    // By `itoa`, since with `writeln!` the whole program `capture` takes 1.3 times as long; but one digit is pushed, which takes less than to copy it.
    if number < 10 {
        out.push(char::from(b'0' + number as u8))
    } else {
        out.push_str(digits.format(number))
    }
}

/// Writes the line of a run, where there is room for the longest.
#[inline(always)]
fn put_line(out: &mut String, digits: &mut Buffer, run: Run) -> Result<(), AllocError>
    requires { string_len out.old + 12 ≤ string_capacity out.old }
    ensures succeeds { IsOk result }
    ensures bytes { string_bytes out.new ≡ string_bytes out.old ++ (line_of run ++ (10 ∷ [])) }
    ensures len { string_len out.new ≤ string_len out.old + 12 }
    ensures capacity { string_capacity out.old ≤ string_capacity out.new }
    ensures bound { run.sample ≤ 65535 }
{
    // `bound` tells the caller that the sample has sixteen bits, as the line is read back only then.
    put_number(out, digits, run.sample)?;
    out.push(' ')?;
    put_number(out, digits, run.count)?;
    out.push('\n')?;
    Ok(())
}

/// The text of runs, which is read back as those runs.
pub fn write_capture(alloc: Global, runs: &Runs) -> Result<String, AllocError>
    ensures { Writes result (rolled runs.now.samples) }
{
    let runs = runs.as_slice();
    let mut out = String::with_capacity(alloc, runs.len().saturating_mul(LINE_BYTES))?;
    let mut digits = Buffer::new();
    for run in runs {
        put_line(&mut out, &mut digits, *run)?;
    }
    Ok(out)
}

/// The text of a capture in as few runs as there can be.
pub fn compact(alloc: Global, text: &[u8]) -> Result<String, Failure>
    ensures { MatchResult result (λ out. Compacts text.now (string_bytes out)) (λ e. Fails 0 e text.now) }
{
    let runs = read_capture(alloc, 0, text)?;
    Ok(write_capture(alloc, &runs)?)
}
