ghost use Rattle.std.specs.Prelude.{◌≡◌, ◌≢◌, ℕ, List, false, IsTrue, IfSome, IfNone};
ghost use Rattle.ms_parse_steps.specs.inner.Punctuations.{punctuation, IsNot};
ghost use Rattle.ms_parse_grammar.specs.Reads.{Follows};
ghost use Rattle.ms_parse_steps.specs.inner.Terminals.{symbol_with, behind};

use crate::input::{Input, terminal_at};
use crate::terminal::Terminal;
use ms_logic::Rel;
use ms_parse_grammar::Binary;
use ms_text::Tokens;

/// A symbol that stands alone between names and expressions.
#[derive(Clone, Copy)]
pub enum Punctuation {
    OpenRound,
    CloseRound,
    CloseCurly,
    Comma,
    Semicolon,
    Arrow,
    Equal,
    Minus,
    Ws1s,
}

fn is_punctuation(terminal: Terminal, mark: Punctuation) -> bool
    ensures yes { (bytes : List ℕ) → IsTrue result → symbol_with terminal bytes ≡ punctuation mark }
    ensures no { (bytes : List ℕ) → result ≡ false → symbol_with terminal bytes ≢ punctuation mark }
{
    match mark {
        Punctuation::OpenRound => matches!(terminal, Terminal::OpenRound),
        Punctuation::CloseRound => matches!(terminal, Terminal::CloseRound),
        Punctuation::CloseCurly => matches!(terminal, Terminal::CloseCurly),
        Punctuation::Comma => matches!(terminal, Terminal::Comma),
        Punctuation::Semicolon => matches!(terminal, Terminal::Semicolon),
        Punctuation::Arrow => matches!(terminal, Terminal::Arrow),
        Punctuation::Equal => matches!(terminal, Terminal::Infix(Binary::Relation(Rel::Equal))),
        Punctuation::Minus => matches!(terminal, Terminal::Shift(true)),
        Punctuation::Ws1s => matches!(terminal, Terminal::Ws1s),
    }
}

/// The number behind that of a token, where it is this symbol.
pub fn behind_mark(tokens: &Tokens, file: u32, i: u32, mark: Punctuation) -> Option<u32>
    ensures some { IfSome result (λ next. Follows (punctuation mark) (behind file tokens.now i) (behind file tokens.now next)) }
    ensures none { IfNone result (IsNot (punctuation mark) (behind file tokens.now i)) }
{
    match terminal_at(tokens, file, i) {
        Some((terminal, _)) => {
            if is_punctuation(terminal, mark) {
                Some(i + 1)
            } else {
                None
            }
        }
        None => None,
    }
}

impl Input<'_> {
    /// The number behind that of a token, where it is this symbol.
    pub fn behind_mark(self, i: u32, mark: Punctuation) -> Option<u32>
        ensures some { IfSome result (λ next. Follows (punctuation mark) (behind self.entry.file self.entry.tokens.now i) (behind self.entry.file self.entry.tokens.now next)) }
        ensures none { IfNone result (IsNot (punctuation mark) (behind self.entry.file self.entry.tokens.now i)) }
    {
        behind_mark(self.tokens, self.file, i, mark)
    }
}
