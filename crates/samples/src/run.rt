//! A run of equal samples.
ghost use Rattle.std.specs.Prelude.{◌≡◌, ◌≤◌, ◌∷◌, replicate};
ghost use Rattle.std.specs.Iterator.{YieldsFirst, item_count};
ghost use Rattle.std.specs.Option.{option_to_list};
ghost use Rattle.samples.specs.Runs.{rolled_on, rolled};

/// A sample, and how often it comes. A run that is kept counts 1 to 65,535; one that counts 0 gives no samples.
#[derive(Clone, Copy, Debug, PartialEq, Eq)]
pub struct Run {
    pub sample: u16,
    pub count: u16,
}

impl Run {
    /// This run and the next as they are kept: equal samples are joined, up to 65,535 of them.
    pub(crate) fn join(self, next: Run) -> (Run, Option<Run>)
        requires { 1 ≤ next.count }
        ensures { result.0 ∷ option_to_list result.1 ≡ rolled_on self (replicate next.count next.sample) }
    {
        if next.sample != self.sample {
            return (self, Some(next));
        }
        let free = u16::MAX - self.count;
        if next.count <= free {
            let count = self.count + next.count;
            return (Run { count, ..self }, None);
        }
        let full = Run {
            count: u16::MAX,
            ..self
        };
        let rest = Run {
            count: next.count - free,
            ..self
        };
        (full, Some(rest))
    }
}

/// The most samples that a run counts, and so the most that a piece has.
pub const MOST_SAMPLES: usize = 65535;

/// The runs of samples, each as long as it can be.
#[derive(Drop)]
pub(crate) struct RunsOf<'a> {
    rest: &'a [u16],
}

impl<'a> RunsOf<'a> {
    /// The runs of these samples.
    pub(crate) fn new(samples: &'a [u16]) -> RunsOf<'a>
        ensures { result.rest.now ≡ samples.now }
    {
        RunsOf { rest: samples }
    }
}

impl Iterator for RunsOf<'_> {
    type Item = Run;

    ghost next_gives = { YieldsFirst (λ s. rolled s.rest.now) };

    ghost remaining = { item_count (λ s. rolled s.rest.now) };

    /// The run with which the samples that are left begin, as long as it can be.
    fn next(&mut self) -> Option<Run> {
        // By `chunks`, since with `take` long runs are read at less than half the speed.
        let most = self.rest.chunks(MOST_SAMPLES).next()?;
        let sample = most[0];
        let count = most.iter().take_while(|next| **next == sample).count();
        self.rest = &self.rest[count..];
        // No more than 65,535 are counted, so `try_from` would only add an error that cannot come.
        let count = count as u16;
        Some(Run { sample, count })
    }
}
