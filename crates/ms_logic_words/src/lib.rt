//! Words that encode assignments, and contents of automata: which words a content accepts, and which content is canonical.
#![tactic(auto)]

mod examples;
mod laws;
mod sign;

pub use examples::{
    worked_contents, worked_covers, worked_encodings, worked_not_canonical, worked_runs,
    worked_truth_values, worked_values, worked_words_over,
};
pub use laws::laws_of_words;
pub use sign::Sign;
