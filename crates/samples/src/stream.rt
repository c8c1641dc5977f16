//! A stream of samples kept as runs.
ghost use Rattle.std.specs.Prelude.{◌≡◌, ◌≤◌, [], replicate};
ghost use Rattle.samples.specs.Internal.{cut_to};
ghost use Rattle.samples.specs.Runs.{samples_of, rolled, Minimal};
ghost use Rattle.samples.specs.Stream.{Extends};

use crate::run::{Run, RunsOf};
use std::alloc::{AllocError, Global};
use std::marker::Model;

/// The runs of a stream: the same, and as few as there can be, however it is handed over.
#[derive(Drop)]
pub struct Runs {
    list: Vec<Run>,
    ghost packed: { rolled (samples_of list.items) ≡ list.items },
}

// The runs of a stream follow from its samples, and so contracts see the samples. That these are packed is a field, and no invariant here: the view takes from it that there is capacity for the runs.
impl Model for Runs {
    ghost use Rattle.std.specs.Prelude.{vec_capacity};
    ghost use Rattle.samples.specs.Runs.{samples_of};
    ghost use Rattle.samples.specs.Stream.{Kept};
    ghost use Rattle.samples.specs.Enough.{enough};

    ghost Value = { Kept };

    ghost view = { λ a. record { samples = samples_of a.list.items; capacity = vec_capacity a.list; enough = enough a.list a.packed; bound = a.list.small } };
}

impl Runs {
    /// The runs of no samples.
    pub fn new(alloc: Global) -> Runs
        ensures { result.samples ≡ [] }
    {
        Runs {
            list: Vec::new(alloc),
        }
    }

    /// The runs so far.
    pub fn as_slice(&self) -> &[Run]
        ensures value { result.now ≡ rolled self.now.samples }
        ensures minimal { Minimal (samples_of result.now) result.now }
    {
        self.list.as_slice()
    }

    /// Takes a run after those so far; one of no samples changes nothing, nor does want of memory.
    pub fn push(&mut self, run: Run) -> Result<(), AllocError>
        ensures extends { Extends result self.old (replicate run.count run.sample) self.new }
        ensures capacity { self.old.capacity ≤ self.new.capacity }
    {
        let last = self.list.last().copied();
        if run.count == 0 {
            return Ok(());
        }
        let Some(last) = last else {
            self.list.push(run)?;
            return Ok(());
        };
        // By its place, since a push that fails has to leave the last run as it was.
        let at = self.list.len() - 1;
        let (last, rest) = last.join(run);
        if let Some(rest) = rest {
            self.list.push(rest)?;
        }
        self.list[at] = last;
        Ok(())
    }

    /// Takes samples after those so far; want of memory changes nothing.
    pub fn extend(&mut self, samples: &[u16]) -> Result<(), AllocError>
        ensures { Extends result self.old samples.now self.new }
    {
        let runs = self.list.len();
        let last = self.list.last().copied();
        for run in RunsOf::new(samples) {
            if let Err(e) = self.push(run) {
                cut_back(&mut self.list, runs, last);
                return Err(e);
            }
        }
        Ok(())
    }
}

/// Goes back to the first `runs` of a list, the last of which was `last`.
fn cut_back(list: &mut Vec<Run>, runs: usize, last: Option<Run>)
    ensures { list.new.items ≡ cut_to runs last list.old.items }
{
    list.truncate(runs);
    if let (Some(end), Some(last)) = (list.last_mut(), last) {
        *end = last;
    }
}
