use crate::operand::{Binder, Locals, Operand};
use crate::stop::Stop;
use ms_list::{At, List, Text};
use ms_logic::Rename;

/// Where an expression stands after a step.
#[derive(Drop)]
pub enum Outcome {
    /// An expression is wanted.
    Wanted,
    /// An expression has been read, which may go on.
    Holding(Operand),
    /// A variable of a binder is wanted.
    Variable(Binder),
    /// A name of a `let` is wanted.
    Part(Locals),
    /// A pair of an import or its end is wanted.
    Pair(At, Text, List<Rename>),
}

/// What a step in an expression comes to: where it stands then, and the number of the token behind; or why it is not taken.
pub type Taken = Result<(Outcome, u32), Stop>;
