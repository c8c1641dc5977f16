//! Theorems: the contract of each function is one, and there is nothing to run.
ghost use Rattle.samples.specs.Stream.{AnyCut, RolledIsMinimal, RunsAreExtended};

/// Every list of samples can be kept as runs of which no others are fewer.
pub fn runs_are_fewest()
    ensures { RolledIsMinimal }
{}

/// However a stream is cut into pieces, each of which extends its runs, they are those of the whole, and as few as there can be.
pub fn any_cut_is_the_same()
    ensures pieces { RunsAreExtended }
    ensures cut { AnyCut }
{}
