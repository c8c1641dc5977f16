//! What is read, a line for each output.
ghost use Rattle.std.specs.Prelude.{◌≡◌, ◌≤◌, length, ◌++◌, IsSome, string_bytes, MatchResult, OnOk};
ghost use Rattle.samples.specs.Runs.{samples_of};
ghost use Rattle.decoder.specs.Machine.{outputs_at};
ghost use Rattle.readout.specs.Listing.{shown, line_at, listing};

use decoder::Machine;
use samples::Run;
use std::alloc::{AllocError, Global};
use std::fmt::Display;

/// Writes the line of an output that was complete at a place.
fn put_line<O: Copy + Display>(output: O, place: u128, out: &mut String) -> Result<(), AllocError>
    requires { IsSome (O.output output) }
    ensures { OnOk result (string_bytes out.new ≡ string_bytes out.old ++ line_at (shown O.output) (place, output)) }
{
    writeln!(out, "{output} at {place}")
}

/// Lists what a reader reads of runs; memory may be wanting only if something is read.
pub(crate) fn list<D: Machine<Input = u16>>(
    alloc: Global,
    mut reader: D,
    runs: &[Run],
) -> Result<String, AllocError>
where
    D::Output: Display,
    requires { (o : D.Output) → IsSome (D.Output.output o) }
    ensures { let read = outputs_at D.step D.emit 0 (D.state reader) (samples_of runs.now) in MatchResult result (λ out. string_bytes out ≡ listing (shown D.Output.output) read) (λ _. 1 ≤ length read) }
{
    let mut out = String::new(alloc);
    let mut place = 0u128;
    // The place is counted by runs, and within a run in sixteen bits: counted at each sample in 128 bits it is most of the work.
    for run in runs {
        let Run { sample, count } = *run;
        for i in 0..count {
            let (next, output) = reader.feed(sample);
            reader = next;
            if let Some(output) = output {
                put_line(output, place + u128::from(i), &mut out)?;
            }
        }
        place += u128::from(count);
    }
    Ok(out)
}
