//! Each core formula has exactly one full content over each list of variables that has its own. A law alone.
#![tactic(auto)]

mod laws;

pub use laws::laws_of_full_contents;
