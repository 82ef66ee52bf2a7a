//! What a checked source promises by itself, whatever source it was made of. Definitions and lemmas alone.
#![tactic(auto)]

mod examples;
mod laws;

pub use examples::{
    worked_constants, worked_exports, worked_names, worked_orders, worked_spellings,
};
pub use laws::laws_of_checked;
