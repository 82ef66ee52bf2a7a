//! Worked examples of requests under a limit that is enough.
#![tactic(auto)]

mod examples;

pub use examples::{worked_inclusion, worked_limits};
