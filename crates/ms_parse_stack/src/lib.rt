//! What machines share that read tokens with a stack: the stack, its frames, why they stop at a token, and what is refused then.
#![tactic(auto)]

mod begun;
mod complete;
mod entering;
mod examples;
mod following;
mod frame;
mod grammar;
mod junction;
mod link;
mod operand;
mod outcome;
mod refusal;
mod sign;
mod stack;
mod stop;
mod yielding;

pub use begun::Begun;
pub use entering::enter;
pub use examples::{
    worked_frames, worked_refusals, worked_rows, worked_stacks, worked_states, worked_steps,
};
pub use following::follow;
pub use frame::Frame;
pub use grammar::Grammar;
pub use junction::Junction;
pub use operand::{Operand, Operands};
pub use outcome::Outcome;
pub use refusal::{refusal_at, refusal_at_end};
pub use sign::Sign;
pub use stack::Stack;
pub use stop::Stop;
