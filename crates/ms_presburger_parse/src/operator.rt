use ms_list::{List, Name};
use ms_logic::Quant;
pub use ms_parse_stack::Junction;

/// An operator between two operands: `<=>`, `=>`.
#[derive(Clone, Copy, PartialEq, Eq)]
pub enum Binary {
    Equivalence,
    Implication,
}

/// What stands before one operand.
#[derive(Drop)]
pub enum Prefix {
    Negation,
    /// A quantifier with its names, up to the colon.
    Quantifier(Quant, List<Name>),
}
