mod examples;
mod laws;

pub use examples::{worked_outside, worked_told};
pub use laws::{laws_of_checks, laws_of_loads, laws_of_reading, laws_of_texts};
