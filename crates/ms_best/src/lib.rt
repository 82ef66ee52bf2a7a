//! First words: the shortest words of a sign, the first among these, and the assignment that a word encodes.
#![tactic(auto)]

mod decoding;
mod distance;
mod distances;
mod first_word;
mod graph;
mod least;

pub use decoding::assignment;
pub use first_word::first;
