//! Linear temporal logic on finite traces: its formulas, when one holds on a trace, and sources of M2L-Str that say the same.
#![tactic(auto)]

mod atoms;
mod bound;
mod examples;
mod formulas;
mod laws;
mod operators;
mod strings;
mod trace;

pub use examples::{worked_formulas, worked_sources, worked_traces, worked_truth};
pub use laws::laws_of_traces;
pub use strings::to_strings;
pub use trace::{Ltl, Trace};
