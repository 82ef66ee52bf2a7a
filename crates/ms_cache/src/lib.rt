//! The bounded memo of a store of diagrams: what pairs of references have become, as long as there is room.
#![tactic(auto)]

mod key;
mod memo;

pub use key::Key;
pub use memo::Memo;
