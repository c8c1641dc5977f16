//! What a decoder reads of a capture, from text to text.
#![tactic(auto)]

mod decode;
mod header;
mod listing;
mod theorems;

pub use decode::decode_text;
pub use header::{Settings, read_header};
pub use theorems::one_listing;
