//! Automata of fewest states: the quotient of an automaton by the states with equal residuals.
#![tactic(auto)]

mod classes;
mod discrete;
mod due;
mod examples;
mod fewest;
mod grouping;
mod hashes;
mod images;
mod marking;
mod numbers;
mod origins;
mod predecessors;
mod quotient;
mod reading;
mod reduction;
mod refinement;
mod rounds;
mod settled;
mod signatures;
mod splitters;
mod splitting;

pub use examples::{
    worked_are_closed, worked_are_images, worked_are_origins, worked_are_own_images,
    worked_comes_from, worked_fewest, worked_hashes, worked_image_of, worked_is_image,
    worked_readings, worked_residuals, worked_split,
};
pub use fewest::minimise;
pub use reading::SignReading;
pub use reduction::{Reduced, reduce};
