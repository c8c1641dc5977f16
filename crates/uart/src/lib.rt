//! Bytes on an asynchronous serial line.
#![tactic(auto)]

mod decode;
mod entry;
mod theorems;
mod words;

pub use entry::{fresh_memory, serial};
pub use theorems::{
    equal_lengths_are_fair, fair_waves_are_read, looks_are_read, only_bytes_are_read,
    streams_are_read, two_calls_read_the_same, worked_examples,
};
pub use words::{Reader, State, Word};
