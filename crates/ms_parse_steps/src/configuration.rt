use crate::context::{Constant, Context, Globals, Signature};
use crate::outcome::Outcome;
use crate::stop::Stop;

/// Where the reading of a source stands.
#[derive(Drop)]
pub enum Configuration {
    /// Between two declarations.
    Outside,
    /// In an expression of a declaration.
    Expression(Context, Outcome),
    /// A variable is wanted.
    Global(Globals),
    /// A parameter is wanted.
    Parameter(Signature),
    /// A terminal or the end is wanted behind a constant's numbers.
    Summand(Constant),
}

/// What a step comes to: where the reading stands then, and the number of the token behind; or why it is not taken.
pub type Step = Result<(Configuration, u32), Stop>;
