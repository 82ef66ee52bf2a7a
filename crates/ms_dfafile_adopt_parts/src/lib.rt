//! That what makes a file the automaton of an import lacks nodes only below the budget of the import.
#![tactic(auto)]

mod examples;
mod laws;

pub use examples::worked_contents;
pub use laws::laws_of_adoptions;
