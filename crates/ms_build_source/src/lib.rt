//! The automata of a checked source: of its main value, of its goals, and of the formulas that it exports. What a call on the way
//! from a checked source asks is shown of what it is handed, and what the calls of a source stand for is told where its formulas are
//! shared.
#![tactic(auto)]

mod call_examples;
mod call_laws;
mod examples;
mod export_laws;
mod graph;
mod handover_laws;
mod roots;
mod solution;
mod source_calls;

pub use call_examples::{worked_calls, worked_spreads};
pub use call_laws::{laws_of_calls, laws_of_names};
pub use examples::{worked_files, worked_imports, worked_limits, worked_solutions};
pub use export_laws::laws_of_exports;
pub use handover_laws::laws_of_handover;
pub use solution::{Solution, solve};
pub use source_calls::SourceCalls;
