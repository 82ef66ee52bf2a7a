//! Decides a formula of linear arithmetic over the natural numbers: from its file to the report on it.
#![tactic(auto)]

mod answer;
mod decide;
mod examples;
mod laws;
mod reading;

pub use decide::decide_problem;
pub use examples::{worked_answers, worked_orders, worked_reports};
pub use laws::{laws_of_answers, laws_of_decisions};
