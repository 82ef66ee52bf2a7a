pub use ms_parse_stack::Junction;

/// An operator before its operand: `~`, `X`, `WX`, `F`, `G`.
#[derive(Clone, Copy, PartialEq, Eq)]
pub enum Prefix {
    Negation,
    Next,
    WeakNext,
    Eventually,
    Always,
}

/// An operator between two operands: `<=>`, `=>`, `U`, `R`.
#[derive(Clone, Copy, PartialEq, Eq)]
pub enum Binary {
    Equivalence,
    Implication,
    Until,
    Release,
}
