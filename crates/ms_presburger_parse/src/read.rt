ghost use Rattle.std.specs.Prelude.{◌≡◌, ◌⊎◌, ◌+◌, ◌<◌, ◌≤◌, length, IfOk, IfErr};
ghost use Rattle.ms_text.specs.TokenList.{Lexed};
ghost use Rattle.ms_presburger.specs.View.{IsWellFormed, arithmetic_of};
ghost use Rattle.ms_presburger_parse.specs.Reading.{Reads, ReadsAsProblem};
ghost use Rattle.ms_presburger_parse.specs.Refused.{IsProblemFault};
ghost use Rattle.ms_presburger_parse.specs.Symbol.{symbols};
ghost use Rattle.ms_presburger_parse.specs.inner.Reached.{HasCome, StopsAt};

use crate::frame::Operand;
use crate::free::free_names;
use crate::place::Place;
use crate::state::{Begun, Outcome};
use crate::step::step;
use crate::terminal::terminal_of;
use ms_edge::Refusal;
use ms_list::let_go;
use ms_parse_stack::{Stop, refusal_at, refusal_at_end};
use ms_presburger::{Linear, Problem};
use ms_text::Tokens;
use std::alloc::Global;

/// A step over the token with a number.
fn step_at(
    alloc: Global,
    tokens: &Tokens,
    i: u32,
    begun: &mut Begun,
    outcome: Outcome,
) -> Result<Outcome, Stop>
    requires within { i < length tokens.now.tokens }
    requires room { i ≤ 67108864 }
    requires here { HasCome tokens.now i begun.old outcome }
    ensures ok { IfOk result (λ next. HasCome tokens.now (i + 1) begun.new next) }
    ensures err { IfErr result (StopsAt tokens.now i) }
{
    let token = tokens.get(i);
    let slice = tokens.slice(i);
    let terminal = terminal_of(token.kind, slice);
    step(alloc, begun, outcome, terminal, slice)
}

/// The formula with its free names.
fn problem_of(alloc: Global, tokens: &Tokens, formula: Linear) -> Result<Problem, Refusal>
    requires read { Reads (symbols tokens.now) (arithmetic_of formula) }
    requires few { length tokens.now.tokens ≤ 67108864 }
    ensures well_formed { IfOk result IsWellFormed }
    ensures read { IfOk result (λ problem. ReadsAsProblem tokens.now problem) }
    ensures refused { IfErr result (λ refusal. refusal ≡ Refusal.Memory) }
{
    match free_names(alloc, &formula) {
        Ok(names) => Ok(Problem { names, formula }),
        Err(_) => Err(Refusal::Memory),
    }
}

/// What has been read behind the last token.
fn finish(
    alloc: Global,
    tokens: &Tokens,
    file: u32,
    begun: Begun,
    outcome: Outcome,
) -> Result<Problem, Refusal>
    requires here { HasCome tokens.now (length tokens.now.tokens) begun outcome }
    requires few { length tokens.now.tokens ≤ 67108864 }
    ensures well_formed { IfOk result IsWellFormed }
    ensures read { IfOk result (λ problem. ReadsAsProblem tokens.now problem) }
    ensures refused { IfErr result (λ refusal. (refusal ≡ Refusal.Memory) ⊎ IsProblemFault file tokens.now refusal) }
{
    let_go(begun);
    match outcome {
        Outcome::Done(whole) => {
            let Operand { formula, .. } = whole;
            problem_of(alloc, tokens, formula)
        }
        Outcome::Within(place) => {
            let_go(place);
            Err(refusal_at_end(tokens, file))
        }
    }
}

fn nothing_begun(alloc: Global) -> Begun
    ensures { (tokens : Lexed) → HasCome tokens 0 result (Outcome.Within Place.Wanted) }
{
    Begun::nothing(alloc)
}

/// The formula that the tokens read as, with its free names. `file` is the number of their file, which a refusal names.
pub fn read_problem(alloc: Global, tokens: &Tokens, file: u32) -> Result<Problem, Refusal>
    ensures well_formed { IfOk result IsWellFormed }
    ensures read { IfOk result (λ problem. ReadsAsProblem tokens.now problem) }
    ensures refused { IfErr result (λ refusal. (refusal ≡ Refusal.Memory) ⊎ IsProblemFault file tokens.now refusal) }
{
    let mut begun = nothing_begun(alloc);
    let mut outcome = Outcome::Within(Place::Wanted);
    for i in 0..tokens.len() {
        match step_at(alloc, tokens, i, &mut begun, outcome) {
            Ok(next) => outcome = next,
            Err(stop) => return Err(refusal_at(tokens, file, i, stop)),
        }
    }
    finish(alloc, tokens, file, begun, outcome)
}
