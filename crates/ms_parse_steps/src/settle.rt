ghost use Rattle.std.specs.Prelude.{◌≡◌, ◌≤◌, ◌<◌, ◌+◌, ℕ, suc, false, List, length, IsTrue, IfOk, ◌-◌};
ghost use Rattle.ms_text.specs.TokenList.{Lexed};
ghost use Rattle.ms_parse_grammar.specs.Grammar.{level, depth, greatest_depth};
ghost use Rattle.ms_parse_steps.specs.inner.Machine.{Context, holding, shift, join_new, shift_int, took};
ghost use Rattle.ms_parse_steps.specs.inner.Outcomes.{Continues, ActsAs};
ghost use Rattle.ms_parse_grammar.specs.Reads.{place};
ghost use Rattle.ms_parse_steps.specs.inner.Terminals.{behind};
ghost use Rattle.ms_parse_steps.specs.inner.Stack.{stack_of};
ghost use Rattle.ms_parse_grammar.specs.Tree.{shifted};
ghost use Rattle.ms_parse_grammar.specs.View.{expression_of};

use crate::complete::finish;
use crate::enter::{begin_frame, level};
use crate::frame::Frame;
use crate::input::Input;
use crate::lists::push_expression;
use crate::memory::boxed;
use crate::operand::{Chain, GREATEST_DEPTH, Operand, Operands};
use crate::outcome::{Outcome, Taken};
use crate::stop::Stop;
use ms_list::List;
use ms_logic::{Form, PlacedInt};
use ms_parse_grammar::{Binary, Junction, least_left, least_operand};
use std::alloc::Global;

/// An operator behind its left operand.
pub fn shift(stack: &mut Vec<Frame>, op: Binary, left: Operand, i: u32) -> Taken
    ensures { (c : Context) (file : ℕ) (lexed : Lexed) →
        ActsAs c file lexed (shift greatest_depth c op (expression_of left.expr, stack_of stack.old.items) (behind file lexed (i - 1)) (behind file lexed i)) stack.new.items result }
{
    if level(&left.expr) < least_left(op) {
        return Err(Stop::Refused(i.saturating_sub(1)));
    }
    begin_frame(stack, Frame::Left(op, left), i)
}

/// The first operand of `&` or `|`, with the operator behind it.
pub fn join_new(
    alloc: Global,
    stack: &mut Vec<Frame>,
    op: Junction,
    first: Operand,
    i: u32,
) -> Taken
    ensures { (c : Context) (file : ℕ) (lexed : Lexed) →
        ActsAs c file lexed (join_new greatest_depth c op (expression_of first.expr) (stack_of stack.old.items) (behind file lexed (i - 1)) (behind file lexed i)) stack.new.items result }
{
    if level(&first.expr) < least_operand(op) {
        return Err(Stop::Refused(i.saturating_sub(1)));
    }
    let height = first.height;
    let at = first.start;
    let mut list = List::new(alloc);
    push_expression(&mut list, first.expr)?;
    let operands = Operands { list, height };
    let frame = Frame::Joined(Chain { at, op, operands });
    begin_frame(stack, frame, i)
}

/// Whether the depth leaves room for a sum of the expression and a number.
fn may_shift(stack: &[Frame], operand: &Operand) -> bool
    ensures yes { IsTrue result → length stack.now + suc (depth (expression_of operand.now.expr)) ≤ 300 }
    ensures no { result ≡ false → 300 < length stack.now + suc (depth (expression_of operand.now.expr)) }
{
    if stack.len() >= 300 {
        return false;
    }
    stack.len() as u32 + 1 + operand.height <= GREATEST_DEPTH
}

/// `+` or `-` and its number behind an expression.
fn shift_by(alloc: Global, stack: &[Frame], operand: Operand, number: PlacedInt, i: u32) -> Taken
    requires { length stack.now + suc (depth (expression_of operand.expr)) ≤ 300 }
    ensures { (c : Context) (file : ℕ) (lexed : Lexed) →
        ActsAs c file lexed (took (holding c (shifted (place (expression_of operand.expr)) (expression_of operand.expr) number) (stack_of stack.now)) (behind file lexed i)) stack.now result }
{
    let height = operand.height;
    let form = Form::Shift(boxed(alloc, operand.expr)?, number);
    let made = finish(operand.start, form, height, i)?;
    Ok((Outcome::Holding(made), i))
}

impl Input<'_> {
    /// The number behind `+` or `-`, which can be added to the expression.
    fn summand_at(
        self,
        stack: &[Frame],
        operand: &Operand,
        minus: bool,
        i: u32,
    ) -> Result<(PlacedInt, u32), Stop>
        ensures room { IfOk result (λ found. length stack.now + suc (depth (expression_of operand.now.expr)) ≤ 300) }
        ensures step { (c : Context) →
            Continues self.entry.file self.entry.tokens.now (shift_int greatest_depth c minus (expression_of operand.now.expr) (stack_of stack.now) (behind self.entry.file self.entry.tokens.now (i - 1)) (behind self.entry.file self.entry.tokens.now i))
            (λ number. took (holding c (shifted (place (expression_of operand.now.expr)) (expression_of operand.now.expr) number) (stack_of stack.now))) result }
    {
        if level(&operand.expr) < 9 {
            return Err(Stop::Refused(i.saturating_sub(1)));
        }
        if !may_shift(stack, operand) {
            return Err(Stop::TooDeep(i.saturating_sub(1)));
        }
        match self.int_at(i, minus)? {
            Some(found) => Ok(found),
            None => Err(Stop::Refused(i)),
        }
    }

    /// `+` or `-` behind an expression.
    pub fn shift_int(self, stack: &[Frame], operand: Operand, minus: bool, i: u32) -> Taken
        ensures { (c : Context) →
            ActsAs c self.entry.file self.entry.tokens.now (shift_int greatest_depth c minus (expression_of operand.expr) (stack_of stack.now) (behind self.entry.file self.entry.tokens.now (i - 1)) (behind self.entry.file self.entry.tokens.now i)) stack.now result }
    {
        let (number, next) = self.summand_at(stack, &operand, minus, i)?;
        shift_by(self.alloc, stack, operand, number, next)
    }
}
