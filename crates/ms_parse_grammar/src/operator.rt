use ms_list::{At, Name, Text};
use ms_logic::Rel;

/// An operator before its operand: `~`, `min` or `max`.
#[derive(Clone, Copy, PartialEq, Eq)]
pub enum Prefix {
    Negation,
    Minimum,
    Maximum,
}

/// An operator between two operands.
#[derive(Clone, Copy, PartialEq, Eq)]
pub enum Binary {
    Implication,
    Equivalence,
    Relation(Rel),
    Union,
    Intersection,
    Difference,
}

/// An operator between two or more operands: `&` or `|`.
#[derive(Clone, Copy, PartialEq, Eq)]
pub enum Junction {
    Conjunction,
    Disjunction,
}

/// Brackets around one expression, with what stands before it.
#[derive(Drop)]
pub enum Bracket {
    Parentheses,
    /// `empty ( .. )`
    Emptiness,
    /// `restrict ( .. )`
    Restriction,
    /// `export ( "file", .. )`, with the place of the text
    Export(At, Text),
}

/// Brackets around a list: `{ .. }`, or a call with the name before them.
#[derive(Drop)]
pub enum Listing {
    Literal,
    Call(Name),
}
