//! Reads the tokens of a text as a formula of linear temporal logic on finite traces, or refuses them.
#![tactic(auto)]

mod enter;
mod examples;
mod frame;
mod laws;
mod operator;
mod read;
mod sights;
mod state;
mod step;
mod terminal;

pub use examples::{
    worked_continuations, worked_depths, worked_levels, worked_names, worked_operators,
    worked_places, worked_refusals, worked_rows, worked_steps,
};
pub use laws::one_trace;
pub use operator::{Binary, Junction, Prefix};
pub use read::read_trace;
