ghost use Rattle.std.specs.Prelude.{◌≡◌, Some};
ghost use Rattle.ms_parse_stack.specs.inner.Machine.{closed, ended, follows, least_before, performed, put, within};
ghost use Rattle.ms_parse_stack.specs.inner.States.{ComesTo, IsMeasuredWith, held_of, stack_of};

use crate::begun::Begun;
use crate::complete::complete_brackets;
use crate::entering::{enter, join};
use crate::frame::{Frame, is_brackets};
use crate::grammar::Grammar;
use crate::operand::Operand;
use crate::outcome::Outcome;
use crate::sign::Sign;
use crate::stop::Stop;
use crate::yielding::settle;
use ms_list::let_go;
use std::alloc::Global;

/// The least level of the operand before a sign.
fn least_before<G: Grammar>(sign: &Sign<G::Binary>) -> u32
    ensures { result ≡ least_before G.machine sign.now }
{
    match sign {
        Sign::Infix(op) => G::left_level(op),
        Sign::Joining(op) => G::junction_level(*op) + 1,
        Sign::Close => 0,
        Sign::End => 0,
    }
}

/// The sign that ends brackets, behind their operand.
fn close<G: Grammar>(
    alloc: Global,
    begun: &mut Begun<Frame<G>>,
    operand: Operand<G>,
) -> Result<Outcome<G>, Stop>
    requires { IsMeasuredWith G.Grammar begun.old operand }
    ensures { ComesTo G.Grammar (closed G.machine (held_of G.Grammar begun.old operand)) begun.new result }
{
    let Some(frame) = begun.frames.pop() else {
        return Err(Stop::Misplaced);
    };
    if !is_brackets(&frame) {
        return Err(Stop::Misplaced);
    }
    let_go(frame);
    let whole = complete_brackets(alloc, operand)?;
    Ok(Outcome::Holding(whole))
}

/// The sign that ends the whole.
fn end<G: Grammar>(begun: &Begun<Frame<G>>, operand: Operand<G>) -> Result<Outcome<G>, Stop>
    requires { IsMeasuredWith G.Grammar begun.now operand }
    ensures { ComesTo G.Grammar (ended G.machine (held_of G.Grammar begun.now operand)) begun.now result }
{
    if begun.frames.is_empty() {
        Ok(Outcome::Done(operand))
    } else {
        Err(Stop::Misplaced)
    }
}

/// What a sign does with the operand that it takes.
fn put<G: Grammar>(
    alloc: Global,
    begun: &mut Begun<Frame<G>>,
    operand: Operand<G>,
    sign: Sign<G::Binary>,
) -> Result<Outcome<G>, Stop>
    requires { IsMeasuredWith G.Grammar begun.old operand }
    ensures { ComesTo G.Grammar (put G.machine sign (held_of G.Grammar begun.old operand)) begun.new result }
{
    match sign {
        Sign::Infix(op) => enter(begun, Frame::Infix(op, operand)),
        Sign::Joining(op) => join(alloc, begun, op, operand),
        Sign::Close => close(alloc, begun, operand),
        Sign::End => end(begun, operand),
    }
}

/// A sign behind an operand.
pub fn follow<G: Grammar>(
    alloc: Global,
    begun: &mut Begun<Frame<G>>,
    operand: Operand<G>,
    sign: Sign<G::Binary>,
) -> Result<Outcome<G>, Stop>
    requires { IsMeasuredWith G.Grammar begun.old operand }
    ensures { (p : G.Place) → G.machine.operand p ≡ Some (G.tree_of operand.formula) → ComesTo G.Grammar (performed G.machine (follows sign) (within (stack_of G.Grammar begun.old.frames) p)) begun.new result }
{
    let operand = settle(alloc, &mut begun.frames, operand, least_before::<G>(&sign))?;
    put(alloc, begun, operand, sign)
}
