//! Connectives of automata, strict in the third value: the product of two, and one with its signs changed.
#![tactic(auto)]

mod change;
mod connective;
mod examples;
mod op;
mod operand;
mod pairing;
mod product;
mod states;

pub use change::{negate, restrict_to};
pub use connective::combine;
pub use examples::{worked_changes, worked_connectives};
pub use op::Op;
pub use operand::{Widened, over_tracks};
pub use pairing::{Paired, pair_up};
pub use states::same_states;
