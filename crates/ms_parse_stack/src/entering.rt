ghost use Rattle.std.specs.Prelude.{◌≡◌, ◌≤◌, ◌∷◌, ◌++◌, [], map, suc, max};
ghost use Rattle.ms_parse_stack.specs.inner.Frames.{behind_joining, inside};
ghost use Rattle.ms_parse_stack.specs.inner.Machine.{linked, plugged, within};
ghost use Rattle.ms_parse_stack.specs.inner.Opened.{frame_of};
ghost use Rattle.ms_parse_stack.specs.inner.States.{ComesTo, IsMeasured, IsMeasuredWith, held_of, stack_of};

use crate::begun::Begun;
use crate::frame::{Frame, inside};
use crate::grammar::Grammar;
use crate::junction::Junction;
use crate::link::{Link, link_of};
use crate::operand::{Operand, Operands, first_operand, with_operand};
use crate::outcome::Outcome;
use crate::stop::Stop;
use std::alloc::Global;

/// Puts a frame on the stack, unless the formula becomes too deep.
pub fn enter<G: Grammar>(begun: &mut Begun<Frame<G>>, frame: Frame<G>) -> Result<Outcome<G>, Stop>
    requires { begun.old.deepest ≤ 300 }
    ensures { (f : G.Tree) → begun.old.deepest ≡ G.depth (plugged G.machine (stack_of G.Grammar begun.old.frames) f) → G.depth f ≤ suc (max (inside G.depth (frame_of G.tree_of frame)) 1) →
        ComesTo G.Grammar (within (frame_of G.tree_of frame ∷ stack_of G.Grammar begun.old.frames) G.machine.wanted) begun.new result }
{
    if !begun.deepen(inside(&frame)) {
        return Err(Stop::TooDeep);
    }
    begun.frames.push(frame)?;
    Ok(Outcome::Wanted)
}

fn begin_list<G: Grammar>(
    alloc: Global,
    begun: &mut Begun<Frame<G>>,
    op: Junction,
    operand: Operand<G>,
) -> Result<Outcome<G>, Stop>
    requires { IsMeasuredWith G.Grammar begun.old operand }
    ensures { ComesTo G.Grammar (within (behind_joining op (G.tree_of operand.formula ∷ []) ∷ stack_of G.Grammar begun.old.frames) G.machine.wanted) begun.new result }
{
    let operands = first_operand(alloc, operand)?;
    enter(begun, Frame::Joining(op, operands))
}

fn go_further<G: Grammar>(
    begun: &mut Begun<Frame<G>>,
    op: Junction,
    operands: Operands<G>,
    operand: Operand<G>,
) -> Result<Outcome<G>, Stop>
    requires { IsMeasured G.Grammar begun.old (plugged G.machine (behind_joining op (map G.tree_of operands.list) ∷ stack_of G.Grammar begun.old.frames) (G.tree_of operand.formula)) }
    ensures { ComesTo G.Grammar (within (behind_joining op (map G.tree_of operands.list ++ G.tree_of operand.formula ∷ []) ∷ stack_of G.Grammar begun.old.frames) G.machine.wanted) begun.new result }
{
    let operands = with_operand(operands, operand)?;
    enter(begun, Frame::Joining(op, operands))
}

/// `&` or `|` behind an operand.
pub fn join<G: Grammar>(
    alloc: Global,
    begun: &mut Begun<Frame<G>>,
    op: Junction,
    operand: Operand<G>,
) -> Result<Outcome<G>, Stop>
    requires { IsMeasuredWith G.Grammar begun.old operand }
    ensures { ComesTo G.Grammar (linked G.machine op (held_of G.Grammar begun.old operand)) begun.new result }
{
    let Some(frame) = begun.frames.pop() else {
        return begin_list(alloc, begun, op, operand);
    };
    match link_of(op, frame) {
        Link::Further(operands) => go_further(begun, op, operands, operand),
        Link::Other(frame) => {
            begun.frames.push(frame)?;
            begin_list(alloc, begun, op, operand)
        }
    }
}
