ghost use Rattle.std.specs.Prelude.{◌≡◌, IsUtf8, IfOk, IfErr, Ok, Err};
ghost use Rattle.ms_parse_stack.specs.inner.Machine.{follows, performed, within};
ghost use Rattle.ms_presburger_parse.specs.inner.Machine.{machine, step};
ghost use Rattle.ms_presburger_parse.specs.inner.States.{ComesTo, IsMeasured, place_of, stack_of, state_of};
ghost use Rattle.ms_presburger_parse.specs.inner.Terminals.{symbol_with};

use crate::enter::{begin, open, open_body, placed};
use crate::frame::Frame;
use crate::moves::{
    operand_of, read_name, with_comma, with_leaf, with_number, with_plus, with_quantifier,
    with_relation,
};
use crate::operator::{Binary, Prefix};
use crate::place::Place;
use crate::state::{Begun, Outcome};
use crate::terminal::Terminal;
use ms_list::let_go;
use ms_parse_stack::{Sign, Stop, follow};
use ms_presburger::Linear;
use std::alloc::Global;

/// A sign behind an operand.
fn read_sign(
    alloc: Global,
    begun: &mut Begun,
    place: Place,
    sign: Sign<Binary>,
) -> Result<Outcome, Stop>
    requires { IsMeasured begun.old (Outcome.Within place) }
    ensures { ComesTo (performed machine (follows sign) (within (stack_of begun.old.frames) (place_of place))) begun.new result }
{
    let operand = operand_of(place)?;
    placed(follow(alloc, begun, operand, sign))
}

/// Where the reading stands within the innermost formula.
fn moved(next: Result<Place, Stop>) -> Result<Outcome, Stop>
    ensures ok { IfOk next (λ place. result ≡ Ok (Outcome.Within place)) }
    ensures err { IfErr next (λ stop. result ≡ Err stop) }
{
    Ok(Outcome::Within(next?))
}

/// A step over a symbol, whose bytes are these where it is a name.
fn step_within(
    alloc: Global,
    begun: &mut Begun,
    place: Place,
    terminal: Terminal,
    slice: &[u8],
) -> Result<Outcome, Stop>
    requires measured { IsMeasured begun.old (Outcome.Within place) }
    requires text { terminal ≡ Terminal.Name → IsUtf8 slice.now }
    ensures { ComesTo (step (within (stack_of begun.old.frames) (place_of place)) (symbol_with terminal slice.now)) begun.new result }
{
    match terminal {
        Terminal::Name => begin(begun, read_name(alloc, place, slice)),
        Terminal::Number(number) => begin(begun, with_number(alloc, place, number)),
        Terminal::Quantifier(quant) => begin(begun, with_quantifier(alloc, place, quant)),
        Terminal::True => moved(with_leaf(place, Linear::True)),
        Terminal::False => moved(with_leaf(place, Linear::False)),
        Terminal::Negation => open(begun, place, Frame::Prefix(Prefix::Negation)),
        Terminal::Infix(op) => read_sign(alloc, begun, place, Sign::Infix(op)),
        Terminal::Joining(op) => read_sign(alloc, begun, place, Sign::Joining(op)),
        Terminal::Relation(rel) => moved(with_relation(alloc, place, rel)),
        Terminal::Plus => moved(with_plus(place)),
        Terminal::Comma => moved(with_comma(place)),
        Terminal::Colon => open_body(begun, place),
        Terminal::Open => open(begun, place, Frame::Brackets),
        Terminal::Close => read_sign(alloc, begun, place, Sign::Close),
        Terminal::Semicolon => read_sign(alloc, begun, place, Sign::End),
        Terminal::Other => {
            let_go(place);
            Err(Stop::Misplaced)
        }
    }
}

/// A step over a symbol, whose bytes are these where it is a name.
pub fn step(
    alloc: Global,
    begun: &mut Begun,
    outcome: Outcome,
    terminal: Terminal,
    slice: &[u8],
) -> Result<Outcome, Stop>
    requires measured { IsMeasured begun.old outcome }
    requires text { terminal ≡ Terminal.Name → IsUtf8 slice.now }
    ensures { ComesTo (step (state_of begun.old outcome) (symbol_with terminal slice.now)) begun.new result }
{
    match outcome {
        Outcome::Within(place) => step_within(alloc, begun, place, terminal, slice),
        Outcome::Done(_) => Err(Stop::Misplaced),
    }
}
