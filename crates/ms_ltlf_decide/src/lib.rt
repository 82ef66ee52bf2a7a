//! Decides a formula of temporal logic on finite traces: from its file to the report on it.
#![tactic(auto)]

mod answer;
mod decide;
mod examples;
mod laws;
mod reading;

pub use decide::decide_formula;
pub use examples::{worked_answers, worked_orders};
pub use laws::laws_of_decisions;
