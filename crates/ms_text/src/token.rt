use crate::keyword::Keyword;
use crate::mark::Mark;

/// What a token is.
#[derive(Clone, Copy, PartialEq, Eq)]
pub enum Kind {
    Name,
    Word(Keyword),
    /// A word of MONA that this language leaves out.
    LeftOut,
    Number(u64),
    Text,
    Mark(Mark),
}

/// A token: what it is, and where its bytes stand.
#[derive(Clone, Copy, PartialEq, Eq)]
pub struct Token {
    pub kind: Kind,
    /// The place of its first byte, from 0.
    pub place: u64,
    /// How many bytes it has.
    pub length: u64,
}
