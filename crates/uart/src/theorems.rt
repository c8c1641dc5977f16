//! Theorems: the contract of each function is one, and there is nothing to run.
ghost use Rattle.uart.specs.Examples.{WorkedExamples};
ghost use Rattle.uart.specs.Rule.{BytesOnly, LooksAreRead};
ghost use Rattle.uart.specs.Stream.{CallsAreCut, StreamsAreRead};
ghost use Rattle.uart.specs.Wave.{EqualLengthsAreFair, WavesAreRead};

/// Of every fair wave just the bytes sent are read.
pub fn fair_waves_are_read()
    ensures { WavesAreRead }
{}

/// A byte whose levels are all as long as a bit is fair.
pub fn equal_lengths_are_fair()
    ensures { EqualLengthsAreFair }
{}

/// Of every stream, fair or not, calls of `serial` read just what it carries, wherever it is cut.
pub fn streams_are_read()
    ensures { StreamsAreRead }
{}

/// Two calls of `serial`, the second with the memory that the first left, which is always taken back, read what one call over the joined samples reads.
pub fn two_calls_read_the_same()
    ensures { CallsAreCut }
{}

/// Every wave, fair or not, is read by looks at the places of its frames.
pub fn looks_are_read()
    ensures { LooksAreRead }
{}

/// Each word that is read holds a byte.
pub fn only_bytes_are_read()
    ensures { BytesOnly }
{}

/// What is read of a few waves.
pub fn worked_examples()
    ensures { WorkedExamples }
{}
