/// The sign of a word: the value of a formula at the assignment that the word encodes, or that it
/// encodes none.
#[derive(Clone, Copy, PartialEq, Eq)]
pub enum Sign {
    Yes,
    No,
    Undefined,
    Outside,
}
