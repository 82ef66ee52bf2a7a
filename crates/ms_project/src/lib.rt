//! Quantifiers over automata: the projection of a body to its other variables, over the values that a domain admits.
#![tactic(auto)]

mod examples;
mod leave_out;
mod marks;
mod pairing;
mod projection;
mod quantifier;
mod quantify;
mod search;
mod signs;
mod subsets;

pub use examples::{worked_marks, worked_quantifiers, worked_sets, worked_truth};
pub use quantifier::Quantifier;
pub use quantify::project;
