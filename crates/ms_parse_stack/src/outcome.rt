use crate::grammar::Grammar;
use crate::operand::Operand;

/// What has been read last.
#[derive(Drop)]
pub enum Outcome<G: Grammar> {
    /// An operand is wanted.
    Wanted,
    /// An operand has been read.
    Holding(Operand<G>),
    /// The sign that ends the whole has been read.
    Done(Operand<G>),
}
