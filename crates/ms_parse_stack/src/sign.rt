use crate::junction::Junction;

/// A sign behind an operand.
#[derive(Drop)]
pub enum Sign<Binary> {
    Infix(Binary),
    Joining(Junction),
    Close,
    /// The sign that ends the whole.
    End,
}
