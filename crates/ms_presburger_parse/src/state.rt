use crate::frame::{Frame, Operand};
use crate::place::Place;
use ms_parse_stack as begun;

/// What has been begun, and the depth of the shortest formula that begins so.
pub type Begun = begun::Begun<Frame>;

/// What has been read last.
#[derive(Drop)]
pub enum Outcome {
    /// Formulas have been begun.
    Within(Place),
    /// The semicolon has been read.
    Done(Operand),
}
