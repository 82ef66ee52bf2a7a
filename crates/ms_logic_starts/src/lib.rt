//! How many starts lead apart: laws of counts from below, of the starts that a reduced store of nodes needs, and of what starts leave of
//! a content.
#![tactic(auto)]

mod bits;
mod counts;
mod examples;
mod needed;
mod starts;

pub use bits::laws_of_first_bits;
pub use counts::{Items, Labels, law_of_counts, law_of_labels};
pub use examples::{worked_counts, worked_needs};
pub use needed::{Leading, Leaving, law_of_left, law_of_needed};
pub use starts::{law_of_rising_numbers, laws_of_starts};
