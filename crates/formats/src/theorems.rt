//! Theorems: the contract of each function is one, and there is nothing to run.
ghost use Rattle.formats.specs.Text.{RoundTrip};

/// What is written of any runs is read back as those runs.
pub fn round_trip()
    ensures { RoundTrip }
{}
