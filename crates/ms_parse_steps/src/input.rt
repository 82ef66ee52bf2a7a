ghost use Rattle.std.specs.Prelude.{◌≡◌, ◌<◌, ◌↔◌, ℕ, List, [], IfSome, IfNone, IfOk, IsTrue};
ghost use Rattle.ms_parse_steps.specs.inner.Terminals.{symbol_with, behind, IsNext, NoName, NoText};
ghost use Rattle.ms_parse_grammar.specs.Symbol.{name, text, between_quotes};
ghost use Rattle.ms_parse_steps.specs.inner.Punctuations.{IsNot};

use crate::terminal::{Terminal, terminal_of};
use ms_list::{At, Name, NoMemory, Text};
use ms_text::{Kind, Tokens};
use std::alloc::Global;
use std::str;

/// The tokens of a source, and the number of its file.
#[derive(Clone, Copy)]
pub struct Input<'a> {
    pub alloc: Global,
    pub tokens: &'a Tokens,
    pub file: u32,
}

pub fn at_of(file: u32, place: u64) -> At
    ensures { result ≡ record { file = file; place = place } }
{
    At { file, place }
}

/// The terminal and the place of the token with a number, where there is one.
pub fn terminal_at(tokens: &Tokens, file: u32, i: u32) -> Option<(Terminal, At)>
    ensures next { IfSome result (λ found. (bytes : List ℕ) × IsNext file tokens.now i (symbol_with found.0 bytes) found.1) }
    ensures within { IfSome result (λ found. i < 67108864) }
    ensures end { IfNone result (behind file tokens.now i ≡ []) }
{
    if i < tokens.len() {
        let token = tokens.get(i);
        Some((terminal_of(token.kind), at_of(file, token.place)))
    } else {
        None
    }
}

fn is_name(kind: Kind) -> bool
    ensures { IsTrue result ↔ (kind ≡ Kind.Name) }
{
    matches!(kind, Kind::Name)
}

fn is_text(kind: Kind) -> bool
    ensures { IsTrue result ↔ (kind ≡ Kind.Text) }
{
    matches!(kind, Kind::Text)
}

/// The place of the token with a number, where it is the name with these bytes.
pub fn name_with(tokens: &Tokens, file: u32, i: u32, bytes: &[u8]) -> Option<At>
    ensures some { IfSome result (λ at. IsNext file tokens.now i (name bytes.now) at) }
    ensures within { IfSome result (λ at. i < 67108864) }
    ensures none { IfNone result (IsNot (name bytes.now) (behind file tokens.now i)) }
{
    if i >= tokens.len() {
        return None;
    }
    let token = tokens.get(i);
    if !is_name(token.kind) {
        return None;
    }
    if tokens.slice(i) == bytes {
        Some(at_of(file, token.place))
    } else {
        None
    }
}

impl Input<'_> {
    /// The terminal and the place of the token with a number, where there is one.
    pub fn terminal_at(self, i: u32) -> Option<(Terminal, At)>
        ensures next { IfSome result (λ found. (bytes : List ℕ) × IsNext self.entry.file self.entry.tokens.now i (symbol_with found.0 bytes) found.1) }
        ensures within { IfSome result (λ found. i < 67108864) }
        ensures end { IfNone result (behind self.entry.file self.entry.tokens.now i ≡ []) }
    {
        terminal_at(self.tokens, self.file, i)
    }

    /// The name that the token with a number is, and its place.
    pub fn name_at(self, i: u32) -> Result<Option<(Name, At)>, NoMemory>
        ensures next { IfOk result (λ found. IfSome found (λ one. IsNext self.entry.file self.entry.tokens.now i (name one.0) one.1)) }
        ensures within { IfOk result (λ found. IfSome found (λ one. i < 67108864)) }
        ensures other { IfOk result (λ found. IfNone found (NoName (behind self.entry.file self.entry.tokens.now i))) }
    {
        if i >= self.tokens.len() {
            return Ok(None);
        }
        let token = self.tokens.get(i);
        if !is_name(token.kind) {
            return Ok(None);
        }
        match str::from_utf8(self.tokens.slice(i)) {
            Ok(name) => Ok(Some((Name::new(self.alloc, name)?, at_of(self.file, token.place)))),
            Err(_) => Ok(None),
        }
    }

    /// What stands between the quotes of the text that the token with a number is, and its place.
    pub fn text_at(self, i: u32) -> Result<Option<(Text, At)>, NoMemory>
        ensures next { IfOk result (λ found. IfSome found (λ one. IsNext self.entry.file self.entry.tokens.now i (text one.0) one.1)) }
        ensures within { IfOk result (λ found. IfSome found (λ one. i < 67108864)) }
        ensures other { IfOk result (λ found. IfNone found (NoText (behind self.entry.file self.entry.tokens.now i))) }
    {
        if i >= self.tokens.len() {
            return Ok(None);
        }
        let token = self.tokens.get(i);
        if !is_text(token.kind) {
            return Ok(None);
        }
        match str::from_utf8(between_quotes(self.tokens.slice(i))) {
            Ok(text) => Ok(Some((Text::new(self.alloc, text)?, at_of(self.file, token.place)))),
            Err(_) => Ok(None),
        }
    }
}

fn between_quotes(slice: &[u8]) -> &[u8]
    ensures { result.now ≡ between_quotes slice.now }
{
    if slice.len() < 2 {
        &slice[..0]
    } else {
        &slice[1..slice.len() - 1]
    }
}
