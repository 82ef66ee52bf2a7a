ghost use Rattle.std.specs.Prelude.{◌≡◌, ◌≤◌, Option};
ghost use Rattle.ms_presburger.specs.Tree.{depth};
ghost use Rattle.ms_parse_stack.specs.inner.Machine.{entered, moved, plugged, within};
ghost use Rattle.ms_parse_stack.specs.inner.States as states;
ghost use Rattle.ms_presburger_parse.specs.contracts.frame.LinearArithmeticGrammar.TheImpl.{ghosts};
ghost use Rattle.ms_presburger_parse.specs.inner.Machine as machines;
ghost use Rattle.ms_presburger_parse.specs.inner.Machine.{body, completed, machine, opening};
ghost use Rattle.ms_presburger_parse.specs.inner.States.{BecomesTwo, Begun, ComesTo, IsMeasured, MovesTo, frame_of, place_of, stack_of};

use crate::frame::{Frame, LinearArithmetic};
use crate::operator::Prefix;
use crate::place::Place;
use crate::state::{Begun, Outcome};
use ms_parse_stack as stacks;
use ms_parse_stack::{Stop, enter};

/// The outcome with its place, by what the machine has read last.
pub fn placed(read: Result<stacks::Outcome<LinearArithmetic>, Stop>) -> Result<Outcome, Stop>
    ensures { (s : machines.State) (begun : Begun) → states.ComesTo ghosts s begun read → ComesTo s begun result }
{
    match read? {
        stacks::Outcome::Wanted => Ok(Outcome::Within(Place::Wanted)),
        stacks::Outcome::Holding(operand) => Ok(Outcome::Within(Place::Holding(operand))),
        stacks::Outcome::Done(operand) => Ok(Outcome::Done(operand)),
    }
}

/// A frame where a formula is wanted.
pub fn open(begun: &mut Begun, place: Place, frame: Frame) -> Result<Outcome, Stop>
    requires { IsMeasured begun.old (Outcome.Within place) }
    ensures { ComesTo (entered machine (opening (frame_of frame)) (within (stack_of begun.old.frames) (place_of place))) begun.new result }
{
    match place {
        Place::Wanted => placed(enter(begun, frame)),
        Place::Naming(..) => Err(Stop::Misplaced),
        Place::Named(..) => Err(Stop::Misplaced),
        Place::Adding(..) => Err(Stop::Misplaced),
        Place::Added(..) => Err(Stop::Misplaced),
        Place::Holding(_) => Err(Stop::Misplaced),
    }
}

/// The colon behind the names of a quantifier.
pub fn open_body(begun: &mut Begun, place: Place) -> Result<Outcome, Stop>
    requires { IsMeasured begun.old (Outcome.Within place) }
    ensures { ComesTo (entered machine body (within (stack_of begun.old.frames) (place_of place))) begun.new result }
{
    match place {
        Place::Named(quant, names) => {
            let frame = Frame::Prefix(Prefix::Quantifier(quant, names));
            placed(enter(begun, frame))
        }
        Place::Wanted => Err(Stop::Misplaced),
        Place::Naming(..) => Err(Stop::Misplaced),
        Place::Adding(..) => Err(Stop::Misplaced),
        Place::Added(..) => Err(Stop::Misplaced),
        Place::Holding(_) => Err(Stop::Misplaced),
    }
}

/// Where a number, a name or a quantifier leads. The innermost formula is two deep then, by which the whole may be too deep.
pub fn begin(begun: &mut Begun, next: Result<Place, Stop>) -> Result<Outcome, Stop>
    requires { begun.old.deepest ≤ 300 }
    ensures { (move : machines.Place → Option machines.Place) (p : machines.Place) → BecomesTwo move → MovesTo (move p) next →
        begun.old.deepest ≡ depth (plugged machine (stack_of begun.old.frames) (completed p)) →
        ComesTo (moved machine move (within (stack_of begun.old.frames) p)) begun.new result }
{
    let place = next?;
    if !begun.deepen(0) {
        return Err(Stop::TooDeep);
    }
    Ok(Outcome::Within(place))
}
