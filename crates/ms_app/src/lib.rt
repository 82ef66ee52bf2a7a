//! The top call of monastr: from words, files and a sink to a status.
#![tactic(auto)]

mod agreement;
mod certification;
mod compare;
mod complete_examples;
mod content;
mod decide;
mod examples;
mod files;
mod found;
mod laws;
mod options;
mod print;
mod same_globals;
mod source;
mod taken;
mod text;
mod top;
mod write;

pub use complete_examples::{worked_deliveries, worked_requests, worked_runs};
pub use examples::{worked_answers, worked_files, worked_globals, worked_questions, worked_writes};
pub use laws::law_of_generated;
pub use top::run;
