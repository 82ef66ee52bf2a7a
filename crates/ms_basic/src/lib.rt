//! The basic relations as automata: each is a small machine that reads the bits of its operands.
#![tactic(auto)]

mod bits;
mod constants;
mod down;
mod examples;
mod greatest;
mod least;
mod less;
mod made;
mod member;
mod moved;
mod number;
mod operands;
mod pairs;
mod plus;
mod reading;
mod relation;
mod repeated;
mod sets;
mod setting;
mod truth;
mod up;
mod verdict;
mod windows;

pub use constants::constant;
pub use examples::{
    worked_agreements, worked_machines, worked_numbers, worked_operands, worked_readings,
    worked_signs, worked_states, worked_windows,
};
pub use relation::basic;
