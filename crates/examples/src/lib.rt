//! Examples of what the crates below do, as tests.
#![tactic(auto)]

#[cfg(test)]
mod headers;
#[cfg(test)]
mod listings;
#[cfg(test)]
mod pieces;
#[cfg(test)]
mod random;
#[cfg(test)]
mod serial;
#[cfg(test)]
mod streams;
#[cfg(test)]
mod texts;
