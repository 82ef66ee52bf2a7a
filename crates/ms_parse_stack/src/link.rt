ghost use Rattle.ms_parse_stack.specs.inner.Opened.{IsLink, frame_of};

use crate::frame::Frame;
use crate::grammar::Grammar;
use crate::junction::Junction;
use crate::operand::Operands;

/// What stands before an operand of `&` or `|`.
#[derive(Drop)]
pub enum Link<G: Grammar> {
    /// Operands of the same operator.
    Further(Operands<G>),
    /// Another frame.
    Other(Frame<G>),
}

pub fn link_of<G: Grammar>(op: Junction, frame: Frame<G>) -> Link<G>
    ensures { IsLink G.tree_of op result (frame_of G.tree_of frame) }
{
    match frame {
        Frame::Joining(other, operands) => {
            if other == op {
                Link::Further(operands)
            } else {
                Link::Other(Frame::Joining(other, operands))
            }
        }
        Frame::Brackets => Link::Other(Frame::Brackets),
        Frame::Prefix(prefix) => Link::Other(Frame::Prefix(prefix)),
        Frame::Infix(infix, left) => Link::Other(Frame::Infix(infix, left)),
    }
}
