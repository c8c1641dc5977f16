//! What reads samples on: one core for every decoder.
#![tactic(auto)]

mod machine;
mod memory;
mod reading;
mod theorems;

pub use machine::{Decoder, Machine};
pub use memory::BadMemory;
pub use reading::read_on;
pub use theorems::any_cut_reads_the_same;
