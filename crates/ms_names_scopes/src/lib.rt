//! What is known while a source is checked: the names in scope, what is read, imported and exported, and the first fault.
#![tactic(auto)]

mod call;
mod checker;
mod default;
mod export;
mod free;
mod global;
mod import;
mod memory;
mod name;
mod names;
mod numbers;
mod order;
mod ordered;
mod predicate;
mod repeat;
mod scope;
mod seen;
mod sum;
mod taken;
mod value;

pub use checker::Checker;
pub use export::Begun;
pub use memory::copy_name;
pub use name::small;
pub use seen::Seen;
pub use taken::Taken;
