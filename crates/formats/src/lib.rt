//! Captures as text: a line `SAMPLE COUNT` for each run.
#![tactic(auto)]

mod capture;
mod cursor;
mod failure;
mod line;
mod number;
mod theorems;

pub use capture::{compact, read_capture, write_capture};
pub use failure::Failure;
pub use line::{end_line, two_numbers};
pub use number::read_number;
pub use theorems::round_trip;
