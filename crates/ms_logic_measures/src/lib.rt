//! What a source is measured by: its steps, the full contents of its core formulas, starts, and the budgets of its steps. Definitions and
//! worked examples alone.
#![tactic(auto)]

mod examples;

pub use examples::{
    worked_budgets, worked_call_measures, worked_files, worked_full_contents, worked_limits,
    worked_only_contents, worked_renamings, worked_restricted_quantifier, worked_starts,
    worked_steps,
};
