ghost use Rattle.std.specs.Prelude.{ℕ, ◌-◌};
ghost use Rattle.ms_text.specs.TokenList.{Lexed};
ghost use Rattle.ms_parse_grammar.specs.Tree.{and_expression};
ghost use Rattle.ms_parse_grammar.specs.View.{expression_of, expressions_of};
ghost use Rattle.ms_parse_steps.specs.inner.Machine.{Context, enter, join, joined_frame, too_deep};
ghost use Rattle.ms_parse_steps.specs.inner.Outcomes.{ActsAs};
ghost use Rattle.ms_parse_steps.specs.inner.Terminals.{behind};
ghost use Rattle.ms_parse_steps.specs.inner.Stack.{stack_of};
ghost use Rattle.ms_parse_grammar.specs.Grammar.{greatest_depth};

use crate::append::with_expression;
use crate::enter::begin_frame;
use crate::frame::Frame;
use crate::operand::{Chain, Operand};
use crate::outcome::Taken;
use crate::settle::join_new;
use crate::stack::{pop_frame, push_frame};
use ms_parse_grammar::Junction;
use std::alloc::Global;

/// What stands before an operand of `&` or `|`.
#[derive(Drop)]
pub enum Link {
    /// Operands with the same operator behind each of them.
    Further(Chain),
    /// Another frame.
    Other(Frame),
}

fn join_further(stack: &mut Vec<Frame>, chain: Chain, operand: Operand, i: u32) -> Taken
    ensures { (c : Context) (file : ℕ) (lexed : Lexed) →
        ActsAs c file lexed (enter greatest_depth c (joined_frame chain.at chain.op (and_expression (expressions_of chain.operands.list) (expression_of operand.expr))) (stack_of stack.old.items) (too_deep (behind file lexed (i - 1))) (behind file lexed i)) stack.new.items result }
{
    let operands = with_expression(chain.operands, operand)?;
    let frame = Frame::Joined(Chain { operands, ..chain });
    begin_frame(stack, frame, i)
}

/// `&` or `|` behind an operand.
pub fn join(alloc: Global, stack: &mut Vec<Frame>, op: Junction, operand: Operand, i: u32) -> Taken
    ensures { (c : Context) (file : ℕ) (lexed : Lexed) →
        ActsAs c file lexed (join greatest_depth c op (expression_of operand.expr) (stack_of stack.old.items) (behind file lexed (i - 1)) (behind file lexed i)) stack.new.items result }
{
    let Some(frame) = pop_frame(stack) else {
        return join_new(alloc, stack, op, operand, i);
    };
    match frame.into_link(op) {
        Link::Further(chain) => join_further(stack, chain, operand, i),
        Link::Other(frame) => {
            push_frame(stack, frame)?;
            join_new(alloc, stack, op, operand, i)
        }
    }
}
