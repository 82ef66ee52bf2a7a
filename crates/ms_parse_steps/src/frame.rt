ghost use Rattle.std.specs.Prelude.{◌≡◌, ◌∷◌, ◌≤◌, ℕ, List, IfOk, IfErr, ◌-◌};
ghost use Rattle.ms_text.specs.TokenList.{Lexed};
ghost use Rattle.ms_parse_grammar.specs.Grammar.{greatest_depth};
ghost use Rattle.ms_parse_grammar.specs.View.{expression_of};
ghost use Rattle.ms_parse_steps.specs.inner.Frames.{frame_of};
ghost use Rattle.ms_parse_steps.specs.inner.Links.{IsLink};
ghost use Rattle.ms_parse_steps.specs.inner.Machine.{Context, close_curly_at, close_round_at, colon_at, comma_at, completed, frame_depth, in_at};
ghost use Rattle.ms_parse_steps.specs.inner.Outcomes.{ActsAs};
ghost use Rattle.ms_parse_steps.specs.inner.Stack.{IsTooDeep, stack_of};
ghost use Rattle.ms_parse_steps.specs.inner.Terminals.{behind};
ghost use Rattle.ms_parse_steps.specs.declared.frame.Frame.{Frame};

use crate::close::{end_bracket, end_call, end_literal};
use crate::complete::{
    complete_body, complete_joined, complete_left, complete_let, complete_prefix,
};
use crate::join::Link;
use crate::operand::{Binder, Chain, Domain, Entries, Identifier, Locals, Operand};
use crate::outcome::Taken;
use crate::separate::{
    another_expression, another_part, another_variable, begin_body, begin_scope,
};
use crate::stop::Stop;
use ms_list::At;
use ms_parse_grammar::{Binary, Bracket, Junction, Prefix};
use std::alloc::Global;

/// An entry of the stack: an expression that has been begun, up to the part that follows.
pub enum Frame {
    Prefix(At, Prefix),
    Left(Binary, Operand),
    Joined(Chain),
    Bracket(At, Bracket),
    Listed(Entries),
    Domain(Domain),
    Body(Binder),
    /// Parts of a `let`, and one whose right side follows.
    Part(Locals, Identifier),
    Let(Locals),
}

impl Drop for Frame {
    fn drop(self) {
        match self {
            Frame::Prefix(_, _) => {}
            Frame::Left(_, left) => drop(left),
            Frame::Joined(chain) => drop(chain),
            Frame::Bracket(_, bracket) => drop(bracket),
            Frame::Listed(entries) => drop(entries),
            Frame::Domain(domain) => drop(domain),
            Frame::Body(binder) => drop(binder),
            Frame::Part(locals, variable) => {
                drop(locals);
                drop(variable)
            }
            Frame::Let(locals) => drop(locals),
        }
    }
}

impl Frame {
    /// The greatest depth of what it holds.
    pub fn height(&self) -> u32
        ensures measured { result ≡ frame_depth (frame_of self.now) }
        ensures bounded { result ≤ 300 }
    {
        match self {
            Frame::Prefix(..) => 0,
            Frame::Left(_, left) => left.height,
            Frame::Joined(chain) => chain.operands.height,
            Frame::Bracket(..) => 0,
            Frame::Listed(entries) => entries.operands.height,
            Frame::Domain(domain) => domain.binder.bounds.height,
            Frame::Body(binder) => binder.bounds.height,
            Frame::Part(locals, _) => locals.parts.height,
            Frame::Let(locals) => locals.parts.height,
        }
    }

    /// The expression that ends with the operand. `i` is the number of the token behind it.
    pub fn complete(self, alloc: Global, operand: Operand, i: u32) -> Result<Operand, Stop>
        ensures ok { IfOk result (λ made. expression_of made.expr ≡ completed (frame_of self) (expression_of operand.expr)) }
        ensures err { IfErr result (IsTooDeep (completed (frame_of self) (expression_of operand.expr)) i) }
    {
        match self {
            Frame::Prefix(at, op) => complete_prefix(alloc, at, op, operand, i),
            Frame::Left(op, left) => complete_left(alloc, op, left, operand, i),
            Frame::Joined(chain) => complete_joined(chain, operand, i),
            Frame::Body(binder) => complete_body(alloc, binder, operand, i),
            Frame::Let(locals) => complete_let(alloc, locals, operand, i),
            Frame::Bracket(..) => Ok(operand),
            Frame::Listed(_) => Ok(operand),
            Frame::Domain(_) => Ok(operand),
            Frame::Part(..) => Ok(operand),
        }
    }

    pub fn into_link(self, op: Junction) -> Link
        ensures { IsLink op result (frame_of self) }
    {
        match self {
            Frame::Joined(chain) => {
                if chain.op == op {
                    Link::Further(chain)
                } else {
                    Link::Other(Frame::Joined(chain))
                }
            }
            frame => Link::Other(frame),
        }
    }

    /// `}` behind an expression, in the frame that stood on top of the stack.
    pub fn close_curly(self, operand: Operand, i: u32) -> Taken
        ensures { (c : Context) (file : ℕ) (lexed : Lexed) (below : List Frame) →
            ActsAs c file lexed (close_curly_at greatest_depth c (expression_of operand.expr) (frame_of self ∷ stack_of below) (behind file lexed (i - 1)) (behind file lexed i)) below result }
    {
        match self {
            Frame::Listed(entries) => end_literal(entries, operand, i),
            _ => Err(Stop::Refused(i.saturating_sub(1))),
        }
    }

    /// `)` behind an expression, in the frame that stood on top of the stack.
    pub fn close_round(self, alloc: Global, operand: Operand, i: u32) -> Taken
        ensures { (c : Context) (file : ℕ) (lexed : Lexed) (below : List Frame) →
            ActsAs c file lexed (close_round_at greatest_depth c (expression_of operand.expr) (frame_of self ∷ stack_of below) (behind file lexed (i - 1)) (behind file lexed i)) below result }
    {
        match self {
            Frame::Bracket(at, bracket) => end_bracket(alloc, at, bracket, operand, i),
            Frame::Listed(entries) => end_call(entries, operand, i),
            _ => Err(Stop::Refused(i.saturating_sub(1))),
        }
    }

    /// `,` behind an expression, in the frame that stood on top of the stack.
    pub fn comma(self, alloc: Global, stack: &mut Vec<Frame>, operand: Operand, i: u32) -> Taken
        ensures { (c : Context) (file : ℕ) (lexed : Lexed) →
            ActsAs c file lexed (comma_at greatest_depth c (expression_of operand.expr) (frame_of self ∷ stack_of stack.old.items) (behind file lexed (i - 1)) (behind file lexed i)) stack.new.items result }
    {
        match self {
            Frame::Listed(entries) => another_expression(stack, entries, operand, i),
            Frame::Domain(domain) => another_variable(alloc, domain, operand, i),
            Frame::Part(locals, variable) => another_part(locals, variable, operand, i),
            _ => Err(Stop::Refused(i.saturating_sub(1))),
        }
    }

    /// `:` behind an expression, in the frame that stood on top of the stack.
    pub fn colon(self, alloc: Global, stack: &mut Vec<Frame>, operand: Operand, i: u32) -> Taken
        ensures { (c : Context) (file : ℕ) (lexed : Lexed) →
            ActsAs c file lexed (colon_at greatest_depth c (expression_of operand.expr) (frame_of self ∷ stack_of stack.old.items) (behind file lexed (i - 1)) (behind file lexed i)) stack.new.items result }
    {
        match self {
            Frame::Domain(domain) => begin_body(alloc, stack, domain, operand, i),
            _ => Err(Stop::Refused(i.saturating_sub(1))),
        }
    }

    /// `in` behind a right side of a `let`, in the frame that stood on top of the stack.
    pub fn end_parts(self, stack: &mut Vec<Frame>, operand: Operand, i: u32) -> Taken
        ensures { (c : Context) (file : ℕ) (lexed : Lexed) →
            ActsAs c file lexed (in_at greatest_depth c (expression_of operand.expr) (frame_of self ∷ stack_of stack.old.items) (behind file lexed (i - 1)) (behind file lexed i)) stack.new.items result }
    {
        match self {
            Frame::Part(locals, variable) => begin_scope(stack, locals, variable, operand, i),
            _ => Err(Stop::Refused(i.saturating_sub(1))),
        }
    }
}
