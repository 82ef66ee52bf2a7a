//! The texts that monastr prints: the report, the summary of a generated source, and the line of a refusal.
#![tactic(auto)]

mod binary;
mod examples;
mod found;
mod number;
mod number_text;
mod refusal_text;
mod report_text;
mod shown_text;
mod summary_text;
mod trace_text;

pub use examples::{worked_number_lines, worked_number_reports};
pub use found::{Answer, Found, GoalAnswer, Stats, Verdict};
pub use number_text::{number_line, number_report};
pub use refusal_text::refusal_line;
pub use report_text::report;
pub use summary_text::summary;
pub use trace_text::trace_report;
