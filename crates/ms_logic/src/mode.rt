/// What numbers and sets are: natural numbers and their finite sets, or the positions of a string and
/// their sets.
#[derive(Clone, Copy, PartialEq, Eq)]
pub enum Mode {
    Ws1s,
    M2lStr,
}

/// The order of a variable or an expression: truth values, numbers, sets.
#[derive(Clone, Copy, PartialEq, Eq)]
pub enum Order {
    Zero,
    One,
    Two,
}

#[derive(Clone, Copy, PartialEq, Eq)]
pub enum Quant {
    Ex,
    All,
}

/// A relation between two terms.
#[derive(Clone, Copy, PartialEq, Eq)]
pub enum Rel {
    Equal,
    Differs,
    Less,
    AtMost,
    Greater,
    AtLeast,
    Member,
    NotMember,
    Sub,
}
