//! Linear arithmetic over the natural numbers: its formulas, when one holds, and sources of WS1S that say the same.
#![tactic(auto)]

mod digits;
mod examples;
mod formulas;
mod laws;
mod linear;
mod scope;
mod sets;
mod summand;
mod summands;
mod sums;

pub use examples::{worked_digits, worked_formulas, worked_sets, worked_sources, worked_truth};
pub use laws::laws_of_numbers;
pub use linear::{Linear, Part, Problem};
pub use sets::to_sets;
