/// Why no token can be read at a place.
#[derive(Clone, Copy, PartialEq, Eq)]
pub enum Cause {
    /// No token, blank or comment begins with this byte, or a text is no UTF-8.
    Word(u8),
    NumberTooLarge,
    /// A comment or a text is never closed.
    Unclosed,
}

/// The first fault of a text, and its place.
#[derive(Clone, Copy, PartialEq, Eq)]
pub struct Fault {
    pub cause: Cause,
    pub place: usize,
}
