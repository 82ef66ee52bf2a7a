//! The lengths that a certificate proves of the file of a question are those of what the report shows. A law and a worked example, and no code
//! that is run.
#![tactic(auto)]

mod examples;
mod laws;

pub use examples::worked_lengths;
pub use laws::law_of_lengths;
