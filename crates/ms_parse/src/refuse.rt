ghost use Rattle.std.specs.Prelude.{◌≡◌, ◌⊎◌, ◌↔◌, IsTrue};
ghost use Rattle.ms_parse_grammar.specs.Symbol.{symbols};
ghost use Rattle.ms_parse.specs.Refused.{IsGrammarFault, NamesFault, end_of};
ghost use Rattle.ms_parse_steps.specs.inner.Stops.{MisplacesAt, DeepensAt, StopsAt, behind_word};

use ms_edge::Refusal;
use ms_list::{At, Name};
use ms_parse_steps::{Punctuation, Stop, at_of, behind_mark};
use ms_text::{Kind, Tokens};
use std::alloc::Global;
use std::str;

fn is_left_out(kind: Kind) -> bool
    ensures { IsTrue result ↔ (kind ≡ Kind.LeftOut) }
{
    matches!(kind, Kind::LeftOut)
}

/// The place of the end of the file.
fn end_at(tokens: &Tokens, file: u32) -> At
    ensures { result ≡ end_of file tokens.now }
{
    at_of(file, tokens.end())
}

/// The refusal at the token with a number, or at the end of the file where there is none.
fn fault_at(alloc: Global, tokens: &Tokens, file: u32, i: u32) -> Refusal
    ensures { MisplacesAt file tokens.now i → (result ≡ Refusal.Memory) ⊎ NamesFault file tokens.now result }
{
    if i >= tokens.len() {
        let at = end_at(tokens, file);
        return Refusal::Grammar { at };
    }
    let token = tokens.get(i);
    let at = at_of(file, token.place);
    if !is_left_out(token.kind) {
        return Refusal::Grammar { at };
    }
    match str::from_utf8(tokens.slice(i)) {
        Ok(word) => match Name::new(alloc, word) {
            Ok(word) => Refusal::LeftOut { at, word },
            Err(_) => Refusal::Memory,
        },
        Err(_) => Refusal::Grammar { at },
    }
}

/// The refusal where an expression becomes too deep at the token with a number.
fn depth_at(tokens: &Tokens, file: u32, i: u32) -> Refusal
    ensures { DeepensAt file tokens.now i → NamesFault file tokens.now result }
{
    if i >= tokens.len() {
        let at = end_at(tokens, file);
        return Refusal::Grammar { at };
    }
    let token = tokens.get(i);
    let at = at_of(file, token.place);
    Refusal::Depth { at }
}

/// `ws1s` at the beginning may be the header, and what stands behind it may not.
fn behind_ws1s(tokens: &Tokens, file: u32, i: u32) -> u32
    ensures { result ≡ behind_word (symbols file tokens.now) i }
{
    if i > 0 {
        return i;
    }
    match behind_mark(tokens, file, 0, Punctuation::Ws1s) {
        Some(_) => 1,
        None => 0,
    }
}

/// The refusal where the reading stops.
pub fn refusal_of(alloc: Global, tokens: &Tokens, file: u32, stop: Stop) -> Refusal
    ensures { StopsAt file tokens.now stop → (result ≡ Refusal.Memory) ⊎ IsGrammarFault file tokens.now result }
{
    match stop {
        Stop::Memory => Refusal::Memory,
        Stop::Refused(i) => fault_at(alloc, tokens, file, behind_ws1s(tokens, file, i)),
        Stop::TooDeep(i) => depth_at(tokens, file, i),
    }
}
