ghost use Rattle.std.specs.Prelude.{◌≡◌, ◌↔◌, ◌≤◌, IsTrue};
ghost use Rattle.ms_parse_stack.specs.inner.Frames.{in_brackets, inside};
ghost use Rattle.ms_parse_stack.specs.inner.Opened.{frame_of};

use crate::grammar::Grammar;
use crate::junction::Junction;
use crate::operand::{Operand, Operands};

/// An entry of the stack: a formula that has been begun, up to the part that follows.
#[derive(Drop)]
pub enum Frame<G: Grammar> {
    Brackets,
    /// An operator before its operand.
    Prefix(G::Prefix),
    /// The left operand, and the operator behind it.
    Infix(G::Binary, Operand<G>),
    /// Operands, and the operator behind each.
    Joining(Junction, Operands<G>),
}

/// How deep the parts are that a frame has before its hole.
pub fn inside<G: Grammar>(frame: &Frame<G>) -> u32
    ensures measured { result ≡ inside G.depth (frame_of G.tree_of frame.now) }
    ensures bounded { result ≤ 300 }
{
    match frame {
        Frame::Brackets => 0,
        Frame::Prefix(_) => 0,
        Frame::Infix(_, left) => left.height,
        Frame::Joining(_, operands) => operands.height,
    }
}

pub fn is_brackets<G: Grammar>(frame: &Frame<G>) -> bool
    ensures { IsTrue result ↔ (frame_of G.tree_of frame.now ≡ in_brackets) }
{
    match frame {
        Frame::Brackets => true,
        Frame::Prefix(_) => false,
        Frame::Infix(..) => false,
        Frame::Joining(..) => false,
    }
}
