ghost use Rattle.std.specs.Prelude.{◌≡◌, ◌≢◌, ℕ, List};
ghost use Rattle.ms_presburger_parse.specs.Symbol.{mark_symbol, name_symbol, symbol_of, word_symbol};
ghost use Rattle.ms_presburger_parse.specs.inner.Terminals.{symbol_with};

use crate::operator::{Binary, Junction};
use ms_logic::{Quant, Rel};
use ms_text::{Keyword, Kind, Mark};

/// A symbol of the grammar without the bytes of its name.
#[derive(Clone, Copy, PartialEq, Eq)]
pub enum Terminal {
    Name,
    Number(u64),
    True,
    False,
    Quantifier(Quant),
    Negation,
    Infix(Binary),
    Joining(Junction),
    Relation(Rel),
    Plus,
    Comma,
    Colon,
    Open,
    Close,
    Semicolon,
    /// What stands in no formula.
    Other,
}

fn terminal_of_word(word: Keyword) -> Terminal
    ensures symbol { (bytes : List ℕ) → word_symbol word ≡ symbol_with result bytes }
    ensures no_name { result ≢ Terminal.Name }
{
    match word {
        Keyword::True => Terminal::True,
        Keyword::False => Terminal::False,
        _ => Terminal::Other,
    }
}

fn terminal_of_mark(mark: Mark) -> Terminal
    ensures symbol { (bytes : List ℕ) → mark_symbol mark ≡ symbol_with result bytes }
    ensures no_name { result ≢ Terminal.Name }
{
    match mark {
        Mark::Not => Terminal::Negation,
        Mark::Equivalence => Terminal::Infix(Binary::Equivalence),
        Mark::Implication => Terminal::Infix(Binary::Implication),
        Mark::And => Terminal::Joining(Junction::Conjunction),
        Mark::Or => Terminal::Joining(Junction::Disjunction),
        Mark::Equal => Terminal::Relation(Rel::Equal),
        Mark::NotEqual => Terminal::Relation(Rel::Differs),
        Mark::Less => Terminal::Relation(Rel::Less),
        Mark::LessEqual => Terminal::Relation(Rel::AtMost),
        Mark::Greater => Terminal::Relation(Rel::Greater),
        Mark::GreaterEqual => Terminal::Relation(Rel::AtLeast),
        Mark::Plus => Terminal::Plus,
        Mark::Comma => Terminal::Comma,
        Mark::Colon => Terminal::Colon,
        Mark::OpenParenthesis => Terminal::Open,
        Mark::CloseParenthesis => Terminal::Close,
        Mark::Semicolon => Terminal::Semicolon,
        _ => Terminal::Other,
    }
}

fn terminal_of_name(slice: &[u8]) -> Terminal
    ensures { name_symbol slice.now ≡ symbol_with result slice.now }
{
    if slice == "ex".as_bytes() {
        return Terminal::Quantifier(Quant::Ex);
    }
    if slice == "all".as_bytes() {
        return Terminal::Quantifier(Quant::All);
    }
    Terminal::Name
}

/// The terminal of a token of a kind with these bytes.
pub fn terminal_of(kind: Kind, slice: &[u8]) -> Terminal
    ensures symbol { symbol_of kind slice.now ≡ symbol_with result slice.now }
    ensures name { result ≡ Terminal.Name → kind ≡ Kind.Name }
{
    match kind {
        Kind::Name => terminal_of_name(slice),
        Kind::Word(word) => terminal_of_word(word),
        Kind::LeftOut => Terminal::Other,
        Kind::Number(number) => Terminal::Number(number),
        Kind::Text => Terminal::Other,
        Kind::Mark(mark) => terminal_of_mark(mark),
    }
}
