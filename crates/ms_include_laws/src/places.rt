mod examples;
mod laws;

pub use examples::{worked_expressions, worked_refusals, worked_sources};
pub use laws::laws_of_places;
