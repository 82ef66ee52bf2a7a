//! How many states and nodes a renaming needs: laws that bound what it lacks by what its formula fixes.
#![tactic(auto)]

mod renamings;

pub use renamings::laws_of_renamings;
