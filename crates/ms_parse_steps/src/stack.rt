ghost use Rattle.std.specs.Prelude.{◌≡◌, ◌+◌, ◌++◌, ◌∷◌, [], vec_len, IfErr, OnOk, MatchOption};
ghost use Rattle.ms_parse_steps.specs.inner.Machine.{collapse};
ghost use Rattle.ms_parse_steps.specs.inner.Frames.{frame_of};
ghost use Rattle.ms_parse_steps.specs.inner.Stack.{stack_of, CollapsesTo};
ghost use Rattle.ms_parse_grammar.specs.View.{expression_of};
ghost use Rattle.ms_parse_steps.specs.declared.stop.Stop.TheVariants.{Memory};
ghost use Rattle.ms_parse_grammar.specs.Grammar.{greatest_depth};

use crate::complete::ends;
use crate::frame::Frame;
use crate::operand::Operand;
use crate::stop::Stop;
use std::alloc::Global;

/// Appends the item, which is dropped where memory is refused.
pub fn push_item<T: Drop>(items: &mut Vec<T>, item: T) -> Result<(), Stop>
    ensures ok { OnOk result (items.new.items ≡ items.old.items ++ item ∷ []) }
    ensures err { IfErr result (λ stop. stop ≡ Memory) }
{
    match items.push(item) {
        Ok(()) => Ok(()),
        Err(_) => Err(Stop::Memory),
    }
}

/// Puts a frame on the stack.
pub fn push_frame(stack: &mut Vec<Frame>, frame: Frame) -> Result<(), Stop>
    ensures ok { OnOk result (stack_of stack.new.items ≡ frame_of frame ∷ stack_of stack.old.items) }
    ensures err { IfErr result (λ stop. stop ≡ Memory) }
{
    push_item(stack, frame)
}

/// Takes the frame on top.
pub fn pop_frame(stack: &mut Vec<Frame>) -> Option<Frame>
    ensures top { MatchOption result (stack_of stack.old.items ≡ []) (λ frame. stack_of stack.old.items ≡ frame_of frame ∷ stack_of stack.new.items) }
    ensures none { MatchOption result (stack_of stack.new.items ≡ []) (λ frame. vec_len stack.new + 1 ≡ vec_len stack.old) }
{
    stack.pop()
}

/// Completes the frames on top that end before an operator which binds so loosely.
pub fn collapse(
    alloc: Global,
    stack: &mut Vec<Frame>,
    operand: Operand,
    bound: u32,
    i: u32,
) -> Result<Operand, Stop>
    ensures { CollapsesTo (collapse greatest_depth bound (expression_of operand.expr) (stack_of stack.old.items)) i result stack.new.items }
{
    let mut held = operand;
    while let Some(frame) = pop_frame(stack) {
        if !ends(bound, &frame) {
            push_frame(stack, frame)?;
            return Ok(held);
        }
        held = frame.complete(alloc, held, i)?;
    }
    Ok(held)
}
