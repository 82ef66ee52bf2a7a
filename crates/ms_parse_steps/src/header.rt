ghost use Rattle.std.specs.Prelude.{◌≡◌, [], Some, None, IfSome, IfNone};
ghost use Rattle.ms_logic.specs.declared.mode.Mode.TheVariants.{Ws1s, M2lStr};
ghost use Rattle.ms_parse_grammar.specs.Symbol.{name, symbols};
ghost use Rattle.ms_parse_steps.specs.inner.Headers.{IsNoString, IsNoWs1s};
ghost use Rattle.ms_parse_steps.specs.inner.Machine.{start};
ghost use Rattle.ms_parse_steps.specs.inner.Punctuations.{IsNot};
ghost use Rattle.ms_parse_steps.specs.inner.Terminals.{behind, IsNext};
ghost use Rattle.ms_parse_grammar.specs.View.{document_of};

use crate::input::{name_with, terminal_at};
use crate::punctuation::{Punctuation, behind_mark};
use ms_list::{At, List};
use ms_logic::{Mode, Source};
use ms_text::Tokens;
use std::alloc::Global;

/// The place of the header `ws1s;`, and the number behind it.
fn ws1s_header(tokens: &Tokens, file: u32) -> Option<(At, u32)>
    ensures some { IfSome result (λ found. start (symbols file tokens.now) ≡ (record { header = Some (found.0, Ws1s); declarations = [] }, behind file tokens.now found.1)) }
    ensures none { IfNone result (IsNoWs1s (symbols file tokens.now)) }
{
    let (_, at) = terminal_at(tokens, file, 0)?;
    let end = behind_mark(tokens, file, 0, Punctuation::Ws1s)?;
    let next = behind_mark(tokens, file, end, Punctuation::Semicolon)?;
    Some((at, next))
}

/// The place of the header `m2l-str;`, and the number behind it.
fn string_header(tokens: &Tokens, file: u32) -> Option<(At, u32)>
    ensures some { IfSome result (λ found. start (symbols file tokens.now) ≡ (record { header = Some (found.0, M2lStr); declarations = [] }, behind file tokens.now found.1)) }
    ensures none { IfNone result (IsNoString (symbols file tokens.now)) }
{
    let at = name_with(tokens, file, 0, b"m2l")?;
    let third = behind_mark(tokens, file, 1, Punctuation::Minus)?;
    name_with(tokens, file, third, b"str")?;
    let next = behind_mark(tokens, file, third + 1, Punctuation::Semicolon)?;
    Some((at, next))
}

/// The header or none, and the number behind it.
pub fn start(alloc: Global, tokens: &Tokens, file: u32) -> (Source, u32)
    ensures { start (symbols file tokens.now) ≡ (document_of result.0, behind file tokens.now result.1) }
{
    let items = List::new(alloc);
    if let Some((at, next)) = ws1s_header(tokens, file) {
        let header = Some((at, Mode::Ws1s));
        return (Source { header, items }, next);
    }
    if let Some((at, next)) = string_header(tokens, file) {
        let header = Some((at, Mode::M2lStr));
        return (Source { header, items }, next);
    }
    let header = None;
    (Source { header, items }, 0)
}
