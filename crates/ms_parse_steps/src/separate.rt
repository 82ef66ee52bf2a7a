ghost use Rattle.std.specs.Prelude.{ℕ, List, ◌-◌};
ghost use Rattle.ms_text.specs.TokenList.{Lexed};
ghost use Rattle.ms_parse_steps.specs.inner.Machine.{Context, list_frame, body_frame, let_frame, variable_wanted, part_wanted, enter, took, too_deep};
ghost use Rattle.ms_parse_steps.specs.inner.Outcomes.{ActsAs};
ghost use Rattle.ms_parse_steps.specs.inner.Terminals.{behind};
ghost use Rattle.ms_parse_steps.specs.inner.Stack.{stack_of};
ghost use Rattle.ms_parse_grammar.specs.Tree.{and_expression, and_variable, and_part, restricted};
ghost use Rattle.ms_parse_grammar.specs.View.{expression_of, expressions_of, variables_of, parts_of};
ghost use Rattle.ms_parse_steps.specs.declared.frame.Frame.{Frame};
ghost use Rattle.ms_parse_grammar.specs.Grammar.{greatest_depth};

use crate::append::{with_expression, with_part, with_restricted};
use crate::enter::begin_frame;
use crate::frame::Frame;
use crate::operand::{Domain, Entries, Identifier, Locals, Operand};
use crate::outcome::{Outcome, Taken};
use std::alloc::Global;

pub fn another_expression(
    stack: &mut Vec<Frame>,
    entries: Entries,
    operand: Operand,
    i: u32,
) -> Taken
    ensures { (c : Context) (file : ℕ) (lexed : Lexed) →
        ActsAs c file lexed (enter greatest_depth c (list_frame entries.at entries.listing (and_expression (expressions_of entries.operands.list) (expression_of operand.expr))) (stack_of stack.old.items) (too_deep (behind file lexed (i - 1))) (behind file lexed i)) stack.new.items result }
{
    let operands = with_expression(entries.operands, operand)?;
    let frame = Frame::Listed(Entries {
        operands,
        ..entries
    });
    begin_frame(stack, frame, i)
}

pub fn another_variable(alloc: Global, domain: Domain, operand: Operand, i: u32) -> Taken
    ensures { (c : Context) (file : ℕ) (lexed : Lexed) (frames : List Frame) →
        ActsAs c file lexed (took (variable_wanted c (stack_of frames) domain.binder.at domain.binder.quant domain.binder.order (and_variable (variables_of domain.binder.bounds.list) domain.variable.at domain.binder.order domain.variable.name (restricted (expression_of operand.expr)))) (behind file lexed i)) frames result }
{
    let binder = with_restricted(alloc, domain.binder, domain.variable, operand)?;
    Ok((Outcome::Variable(binder), i))
}

pub fn another_part(locals: Locals, variable: Identifier, operand: Operand, i: u32) -> Taken
    ensures { (c : Context) (file : ℕ) (lexed : Lexed) (frames : List Frame) →
        ActsAs c file lexed (took (part_wanted c (stack_of frames) locals.at locals.order (and_part (parts_of locals.parts.list) variable.at variable.name (expression_of operand.expr))) (behind file lexed i)) frames result }
{
    let parts = with_part(locals.parts, variable, operand)?;
    Ok((Outcome::Part(Locals { parts, ..locals }), i))
}

pub fn begin_body(
    alloc: Global,
    stack: &mut Vec<Frame>,
    domain: Domain,
    operand: Operand,
    i: u32,
) -> Taken
    ensures { (c : Context) (file : ℕ) (lexed : Lexed) →
        ActsAs c file lexed (enter greatest_depth c (body_frame domain.binder.at domain.binder.quant domain.binder.order (and_variable (variables_of domain.binder.bounds.list) domain.variable.at domain.binder.order domain.variable.name (restricted (expression_of operand.expr)))) (stack_of stack.old.items) (too_deep (behind file lexed (i - 1))) (behind file lexed i)) stack.new.items result }
{
    let binder = with_restricted(alloc, domain.binder, domain.variable, operand)?;
    begin_frame(stack, Frame::Body(binder), i)
}

pub fn begin_scope(
    stack: &mut Vec<Frame>,
    locals: Locals,
    variable: Identifier,
    operand: Operand,
    i: u32,
) -> Taken
    ensures { (c : Context) (file : ℕ) (lexed : Lexed) →
        ActsAs c file lexed (enter greatest_depth c (let_frame locals.at locals.order (and_part (parts_of locals.parts.list) variable.at variable.name (expression_of operand.expr))) (stack_of stack.old.items) (too_deep (behind file lexed (i - 1))) (behind file lexed i)) stack.new.items result }
{
    let parts = with_part(locals.parts, variable, operand)?;
    let frame = Frame::Let(Locals { parts, ..locals });
    begin_frame(stack, frame, i)
}
