//! Exploration: the automaton of the states that a machine reaches, each with a number at first sight.
#![tactic(auto)]

mod builder;
mod examples;
mod exploration;
mod machine;
mod small;
mod tabulate;
mod tracks;

pub use builder::from_machine;
pub use examples::{worked_joins, worked_places, worked_table_signs, worked_track_bits};
pub use exploration::explore;
pub use machine::Machine;
pub use small::{SmallMachine, TrackBits};
pub use tracks::{distinct, merge, place_of, places_among};
