ghost use Rattle.std.specs.Prelude.{◌≡◌, ◌<◌, ◌^◌};
ghost use Rattle.ms_text.specs.Spelling.{Spells, IsAccepted};
ghost use Rattle.ms_text.specs.inner.Kept.{kept_kind, kept_of, kind_with};

use crate::keyword::Keyword;
use crate::mark::Mark;
use crate::scan::number_of;
use crate::token::{Kind, Token};

/// What a token is, as it is kept: a number by its digits, which stand in the text.
#[derive(Clone, Copy)]
pub(crate) enum KeptKind {
    Name,
    Word(Keyword),
    LeftOut,
    Number,
    Text,
    Mark(Mark),
}

/// A token as it is kept, in 12 bytes.
#[derive(Clone, Copy)]
pub(crate) struct Kept {
    pub kind: KeptKind,
    pub place: u32,
    pub length: u32,
}

fn kept_kind(kind: Kind) -> KeptKind
    ensures { result ≡ kept_kind kind }
{
    match kind {
        Kind::Name => KeptKind::Name,
        Kind::Word(word) => KeptKind::Word(word),
        Kind::LeftOut => KeptKind::LeftOut,
        Kind::Number(_) => KeptKind::Number,
        Kind::Text => KeptKind::Text,
        Kind::Mark(mark) => KeptKind::Mark(mark),
    }
}

// What is kept of a token.
pub(crate) fn keep(token: Token) -> Kept
    requires place { token.place < 2 ^ 32 }
    requires length { token.length < 2 ^ 32 }
    ensures { result ≡ kept_of token }
{
    Kept {
        kind: kept_kind(token.kind),
        place: token.place as u32,
        length: token.length as u32,
    }
}

// What a token is whose bytes these are.
pub(crate) fn kind_with(kept: KeptKind, slice: &[u8]) -> Kind
    requires spelled { Spells (kind_with kept slice.now) slice.now }
    requires accepted { IsAccepted (kind_with kept slice.now) slice.now }
    ensures { result ≡ kind_with kept slice.now }
{
    match kept {
        KeptKind::Name => Kind::Name,
        KeptKind::Word(word) => Kind::Word(word),
        KeptKind::LeftOut => Kind::LeftOut,
        KeptKind::Number => Kind::Number(number_of(slice).unwrap_or(0)),
        KeptKind::Text => Kind::Text,
        KeptKind::Mark(mark) => Kind::Mark(mark),
    }
}
