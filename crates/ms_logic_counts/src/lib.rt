//! The counts of references, pairs and sets to which starts lead exist: laws, worked examples, and no code that is run.
#![tactic(auto)]

mod calls;
mod counts;
mod examples;
mod starts;

pub use calls::laws_of_calls;
pub use counts::{Items, law_of_counts};
pub use examples::worked_counts;
pub use starts::laws_of_starts;
