ghost use Rattle.std.specs.Prelude.{◌≡◌, ◌≢◌, ℕ, List};
ghost use Rattle.ms_ltlf_parse.specs.Symbol.{mark_symbol, name_symbol, symbol_of, word_symbol};
ghost use Rattle.ms_ltlf_parse.specs.inner.Terminals.{symbol_with};

use crate::operator::{Binary, Junction, Prefix};
use ms_text::{Keyword, Kind, Mark};

/// A symbol of the grammar without the bytes of its name.
#[derive(Clone, Copy)]
pub enum Terminal {
    Name,
    True,
    False,
    Prefix(Prefix),
    Infix(Binary),
    Joining(Junction),
    Open,
    Close,
    Semicolon,
    /// What stands in no formula.
    Other,
}

fn terminal_of_word(word: Keyword) -> Terminal
    ensures symbol { (bytes : List ℕ) → word_symbol word ≡ symbol_with result bytes }
    ensures no_name { result ≢ Terminal.Name }
{
    match word {
        Keyword::True => Terminal::True,
        Keyword::False => Terminal::False,
        _ => Terminal::Other,
    }
}

fn terminal_of_mark(mark: Mark) -> Terminal
    ensures symbol { (bytes : List ℕ) → mark_symbol mark ≡ symbol_with result bytes }
    ensures no_name { result ≢ Terminal.Name }
{
    match mark {
        Mark::Not => Terminal::Prefix(Prefix::Negation),
        Mark::Equivalence => Terminal::Infix(Binary::Equivalence),
        Mark::Implication => Terminal::Infix(Binary::Implication),
        Mark::And => Terminal::Joining(Junction::Conjunction),
        Mark::Or => Terminal::Joining(Junction::Disjunction),
        Mark::OpenParenthesis => Terminal::Open,
        Mark::CloseParenthesis => Terminal::Close,
        Mark::Semicolon => Terminal::Semicolon,
        _ => Terminal::Other,
    }
}

fn terminal_of_name(slice: &[u8]) -> Terminal
    ensures { name_symbol slice.now ≡ symbol_with result slice.now }
{
    if slice == "X".as_bytes() {
        return Terminal::Prefix(Prefix::Next);
    }
    if slice == "WX".as_bytes() {
        return Terminal::Prefix(Prefix::WeakNext);
    }
    if slice == "F".as_bytes() {
        return Terminal::Prefix(Prefix::Eventually);
    }
    if slice == "G".as_bytes() {
        return Terminal::Prefix(Prefix::Always);
    }
    if slice == "U".as_bytes() {
        return Terminal::Infix(Binary::Until);
    }
    if slice == "R".as_bytes() {
        return Terminal::Infix(Binary::Release);
    }
    Terminal::Name
}

/// The terminal of a token of a kind with these bytes.
pub fn terminal_of(kind: Kind, slice: &[u8]) -> Terminal
    ensures symbol { symbol_of kind slice.now ≡ symbol_with result slice.now }
    ensures name { result ≡ Terminal.Name → kind ≡ Kind.Name }
{
    match kind {
        Kind::Name => terminal_of_name(slice),
        Kind::Word(word) => terminal_of_word(word),
        Kind::LeftOut => Terminal::Other,
        Kind::Number(_) => Terminal::Other,
        Kind::Text => Terminal::Other,
        Kind::Mark(mark) => terminal_of_mark(mark),
    }
}
