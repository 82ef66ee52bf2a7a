ghost use Rattle.std.specs.Prelude.{◌≡◌, ◌∷◌, List, MatchOption};
ghost use Rattle.ms_parse_steps.specs.inner.Machine as machine;
ghost use Rattle.ms_parse_steps.specs.inner.Machine.{need, in_part};
ghost use Rattle.ms_parse_steps.specs.inner.Frames.{frame_of};
ghost use Rattle.ms_parse_steps.specs.inner.Stack.{stack_of};

use crate::frame::Frame;
use ms_parse_grammar::{infix_reach, junction_reach, prefix_reach};

fn need_in(frame: &Frame) -> u32
    ensures { (below : List machine.Frame) → result ≡ need (frame_of frame.now ∷ below) }
{
    match frame {
        Frame::Prefix(_, op) => prefix_reach(*op),
        Frame::Left(op, _) => infix_reach(*op),
        Frame::Joined(chain) => junction_reach(chain.op) + 1,
        Frame::Bracket(..) => 0,
        Frame::Listed(_) => 0,
        Frame::Domain(_) => 0,
        Frame::Body(_) => 0,
        Frame::Part(..) => 0,
        Frame::Let(_) => 0,
    }
}

/// How tightly the expression that is wanted must bind at least.
pub fn need(stack: &[Frame]) -> u32
    ensures { result ≡ need (stack_of stack.now) }
{
    if stack.is_empty() {
        return 0;
    }
    need_in(&stack[stack.len() - 1])
}

/// Whether the top of the stack stands in a right side of a `let`, where it is known without the frames below.
fn part_in(frame: &Frame) -> Option<bool>
    ensures { (below : List machine.Frame) → MatchOption result (in_part (frame_of frame.now ∷ below) ≡ in_part below) (λ inside. in_part (frame_of frame.now ∷ below) ≡ inside) }
{
    match frame {
        Frame::Bracket(..) => Some(false),
        Frame::Listed(_) => Some(false),
        Frame::Part(..) => Some(true),
        Frame::Prefix(..) => None,
        Frame::Left(..) => None,
        Frame::Joined(_) => None,
        Frame::Domain(_) => None,
        Frame::Body(_) => None,
        Frame::Let(_) => None,
    }
}

/// Whether a right side of a `let` has been begun, and no bracket in it.
pub fn in_part(stack: &[Frame]) -> bool
    ensures { result ≡ in_part (stack_of stack.now) }
{
    let mut left = stack.len();
    while left > 0 {
        left -= 1;
        if let Some(inside) = part_in(&stack[left]) {
            return inside;
        }
    }
    false
}
