//! What each call of an operation on automata lacks and makes, by its own measure. Laws alone.
#![tactic(auto)]

mod connectives;
mod examples;
mod fewest;
mod projections;
mod relations;
mod renamings;
mod widenings;

pub use connectives::laws_of_connectives;
pub use examples::worked_calls;
pub use fewest::laws_of_fewest_states;
pub use projections::laws_of_projections;
pub use relations::sizes_of_relations;
pub use renamings::laws_of_renamings;
pub use widenings::laws_of_widenings;
