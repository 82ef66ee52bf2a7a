//! Reads the tokens of a text as a formula of linear arithmetic, or refuses them.
#![tactic(auto)]

mod enter;
mod examples;
mod frame;
mod free;
mod laws;
mod moves;
mod operator;
mod place;
mod read;
mod state;
mod step;
mod terminal;

pub use examples::{
    worked_continuations, worked_depths, worked_levels, worked_names, worked_operators,
    worked_quantifiers, worked_refusals, worked_rows, worked_scopes, worked_steps, worked_symbols,
};
pub use laws::one_problem;
pub use operator::{Binary, Junction};
pub use read::read_problem;
