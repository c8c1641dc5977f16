//! Samples of sixteen lines, and samples kept as runs.
#![tactic(auto)]

mod line;
mod piece;
mod refusal;
mod run;
mod stream;
mod theorems;

pub use line::is_high;
pub use piece::{check_piece, roll};
pub use refusal::Refusal;
pub use run::{MOST_SAMPLES, Run};
pub use stream::Runs;
pub use theorems::{any_cut_is_the_same, runs_are_fewest};
