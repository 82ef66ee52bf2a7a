/// An operator between two operands or more: `&`, `|`.
#[derive(Clone, Copy, PartialEq, Eq)]
pub enum Junction {
    Conjunction,
    Disjunction,
}
