ghost use Rattle.std.specs.Prelude.{◌≡◌, ◌⊎◌, ◌+◌, ◌<◌, ◌≤◌, length, IsUtf8, IfOk, IfErr, OnOk};
ghost use Rattle.indexmap.specs.IndexMap.{get_by_text};
ghost use Rattle.ms_ltlf.specs.View.{IsWellFormed};
ghost use Rattle.ms_parse_stack.specs.declared.outcome.Outcome.TheVariants.{Wanted};
ghost use Rattle.ms_ltlf_parse.specs.Reading.{ReadsAsTrace, place, with_sight};
ghost use Rattle.ms_ltlf_parse.specs.Refused.{IsTraceFault};
ghost use Rattle.ms_ltlf_parse.specs.inner.Reached.{HasCome, StopsAt};
ghost use Rattle.ms_ltlf_parse.specs.inner.Sights.{IsTable};
ghost use Rattle.ms_ltlf_parse.specs.inner.Terminals.{symbol_with};

use crate::sights::{Sights, no_sights, number};
use crate::state::{Begun, Outcome};
use crate::step::step;
use crate::terminal::{Terminal, terminal_of};
use ms_edge::Refusal;
use ms_list::{NoMemory, let_go};
use ms_ltlf::Trace;
use ms_parse_stack::{Stop, refusal_at, refusal_at_end};
use ms_text::Tokens;
use std::alloc::Global;
use std::str;

/// The names so far, and what has been begun.
#[derive(Drop)]
pub struct Reader {
    pub sights: Sights,
    pub begun: Begun,
}

/// The number of a proposition, which is new or was seen before; 0 for another symbol.
fn number_of(
    alloc: Global,
    sights: &mut Sights,
    terminal: Terminal,
    slice: &[u8],
) -> Result<u32, NoMemory>
    requires table { IsTable (λ n. get_by_text sights.old.places n) sights.old.names }
    requires room { length sights.old.names ≤ 67108864 }
    requires text { terminal ≡ Terminal.Name → IsUtf8 slice.now }
    ensures table { OnOk result (IsTable (λ n. get_by_text sights.new.places n) sights.new.names) }
    ensures names { OnOk result (sights.new.names ≡ with_sight sights.old.names (symbol_with terminal slice.now)) }
    ensures number { IfOk result (λ number. terminal ≡ Terminal.Name → place sights.new.names slice.now ≡ number) }
{
    match terminal {
        Terminal::Name => match str::from_utf8(slice) {
            Ok(name) => number(alloc, sights, name),
            Err(_) => unreachable!(),
        },
        _ => Ok(0),
    }
}

/// A step over the token with a number.
fn step_at(
    alloc: Global,
    tokens: &Tokens,
    i: u32,
    reader: &mut Reader,
    outcome: Outcome,
) -> Result<Outcome, Stop>
    requires within { i < length tokens.now.tokens }
    requires room { i ≤ 67108864 }
    requires here { HasCome tokens.now i reader.old outcome }
    ensures ok { IfOk result (λ next. HasCome tokens.now (i + 1) reader.new next) }
    ensures err { IfErr result (StopsAt tokens.now i) }
{
    let token = tokens.get(i);
    let slice = tokens.slice(i);
    let terminal = terminal_of(token.kind, slice);
    let number = number_of(alloc, &mut reader.sights, terminal, slice)?;
    step(alloc, &mut reader.begun, outcome, terminal, number)
}

/// What has been read behind the last token.
fn finish(tokens: &Tokens, file: u32, reader: Reader, outcome: Outcome) -> Result<Trace, Refusal>
    requires here { HasCome tokens.now (length tokens.now.tokens) reader outcome }
    requires few { length tokens.now.tokens ≤ 67108864 }
    ensures well_formed { IfOk result IsWellFormed }
    ensures read { IfOk result (λ trace. ReadsAsTrace tokens.now trace) }
    ensures refused { IfErr result (IsTraceFault file tokens.now) }
{
    let Reader { sights, begun } = reader;
    let Sights { places, names } = sights;
    let_go(places);
    let_go(begun);
    match outcome {
        Outcome::Done(whole) => {
            let formula = whole.formula;
            Ok(Trace { names, formula })
        }
        Outcome::Wanted => Err(refusal_at_end(tokens, file)),
        Outcome::Holding(_) => Err(refusal_at_end(tokens, file)),
    }
}

fn new_reader(alloc: Global, tokens: &Tokens) -> Reader
    ensures { HasCome tokens.now 0 result Wanted }
{
    let sights = no_sights(alloc);
    let begun = Begun::nothing(alloc);
    Reader { sights, begun }
}

/// The formula that the tokens read as, and the names of its propositions. `file` is the number of their file, which a refusal
/// names.
pub fn read_trace(alloc: Global, tokens: &Tokens, file: u32) -> Result<Trace, Refusal>
    ensures well_formed { IfOk result IsWellFormed }
    ensures read { IfOk result (λ trace. ReadsAsTrace tokens.now trace) }
    ensures refused { IfErr result (λ refusal. (refusal ≡ Refusal.Memory) ⊎ IsTraceFault file tokens.now refusal) }
{
    let mut reader = new_reader(alloc, tokens);
    let mut outcome = Outcome::Wanted;
    for i in 0..tokens.len() {
        match step_at(alloc, tokens, i, &mut reader, outcome) {
            Ok(next) => outcome = next,
            Err(stop) => return Err(refusal_at(tokens, file, i, stop)),
        }
    }
    finish(tokens, file, reader, outcome)
}
