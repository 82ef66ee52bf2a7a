ghost use Rattle.std.specs.Prelude.{◌≡◌, ◌≤◌, map, IfOk};
ghost use Rattle.ms_parse_stack.specs.inner.Frames.{filled, yields};
ghost use Rattle.ms_parse_stack.specs.inner.Opened.{frame_of};
ghost use Rattle.ms_parse_stack.specs.inner.Settled.{plugged, settled};

use crate::complete::complete;
use crate::frame::Frame;
use crate::grammar::Grammar;
use crate::operand::Operand;
use crate::stack::Stack;
use ms_list::NoMemory;
use std::alloc::Global;

/// Whether what has been begun ends before a symbol that wants a left operand of this level.
fn yields<G: Grammar>(least: u32, frame: &Frame<G>) -> bool
    ensures { result ≡ yields G.machine.operators least (frame_of G.tree_of frame.now) }
{
    match frame {
        Frame::Brackets => false,
        Frame::Prefix(op) => least <= G::prefix_operand(op),
        Frame::Infix(op, _) => least <= G::binary_level(op),
        Frame::Joining(op, _) => least <= G::junction_level(*op),
    }
}

/// Completes the frames on top that end before a symbol which wants a left operand of this level.
pub fn settle<G: Grammar>(
    alloc: Global,
    stack: &mut Stack<Frame<G>>,
    operand: Operand<G>,
    least: u32,
) -> Result<Operand<G>, NoMemory>
    requires { G.depth (plugged (filled G.machine.operators) (map (frame_of G.tree_of) stack.old) (G.tree_of operand.formula)) ≤ 300 }
    ensures { IfOk result (λ made. settled (filled G.machine.operators) (yields G.machine.operators least) (map (frame_of G.tree_of) stack.old) (G.tree_of operand.formula) ≡ (map (frame_of G.tree_of) stack.new, G.tree_of made.formula)) }
{
    let mut held = operand;
    while let Some(frame) = stack.pop() {
        if !yields(least, &frame) {
            stack.push(frame)?;
            return Ok(held);
        }
        held = complete(alloc, frame, held)?;
    }
    Ok(held)
}
