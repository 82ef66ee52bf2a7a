ghost use Rattle.std.specs.Prelude.{◌≡◌, ◌≤◌, ◌<◌, ◌+◌, IfOk, IfErr};
ghost use Rattle.ms_parse_grammar.specs.Grammar.{depth};
ghost use Rattle.ms_parse_steps.specs.inner.Machine.{ends};
ghost use Rattle.ms_parse_steps.specs.inner.Frames.{frame_of};
ghost use Rattle.ms_parse_grammar.specs.Reads.{place};
ghost use Rattle.ms_parse_steps.specs.inner.Stack.{IsTooDeep};
ghost use Rattle.ms_parse_grammar.specs.Tree.{prefixed, binary, joined, quantified, let_in, and_expression};
ghost use Rattle.ms_parse_grammar.specs.View.{expression_of, form_of, expressions_of, variables_of, parts_of};

use crate::append::with_expression;
use crate::form::{infixed, joined, placed, prefixed};
use crate::frame::Frame;
use crate::memory::boxed;
use crate::operand::{Binder, Chain, GREATEST_DEPTH, Locals, Operand, Operands};
use crate::stop::Stop;
use ms_list::At;
use ms_logic::Form;
use ms_parse_grammar::{Binary, Prefix, infix_reach, junction_reach, prefix_reach};
use std::alloc::Global;

/// The form at a place, where it is not too deep. `i` is the number of the token that ends it.
pub fn finish(at: At, form: Form, inside: u32, i: u32) -> Result<Operand, Stop>
    requires bounded { inside ≤ 300 }
    requires measured { depth (form_of form at) ≡ inside + 1 }
    requires begins { place (form_of form at) ≡ at }
    ensures ok { IfOk result (λ made. expression_of made.expr ≡ form_of form at) }
    ensures err { IfErr result (IsTooDeep (form_of form at) i) }
{
    let height = inside + 1;
    if height > GREATEST_DEPTH {
        return Err(Stop::TooDeep(i));
    }
    let expr = placed(at, form);
    Ok(Operand {
        expr,
        start: at,
        height,
    })
}

/// Whether a frame ends before an operator that binds so loosely.
pub fn ends(bound: u32, frame: &Frame) -> bool
    ensures { result ≡ ends bound (frame_of frame.now) }
{
    match frame {
        Frame::Prefix(_, op) => bound <= prefix_reach(*op),
        Frame::Left(op, _) => bound <= infix_reach(*op),
        Frame::Joined(chain) => bound <= junction_reach(chain.op),
        Frame::Body(_) => bound == 0,
        Frame::Let(_) => bound == 0,
        Frame::Bracket(..) => false,
        Frame::Listed(_) => false,
        Frame::Domain(_) => false,
        Frame::Part(..) => false,
    }
}

pub fn complete_prefix(
    alloc: Global,
    at: At,
    op: Prefix,
    operand: Operand,
    i: u32,
) -> Result<Operand, Stop>
    ensures ok { IfOk result (λ made. expression_of made.expr ≡ prefixed at op (expression_of operand.expr)) }
    ensures err { IfErr result (IsTooDeep (prefixed at op (expression_of operand.expr)) i) }
{
    let inside = operand.height;
    finish(at, prefixed(alloc, op, operand.expr)?, inside, i)
}

pub fn complete_left(
    alloc: Global,
    op: Binary,
    left: Operand,
    right: Operand,
    i: u32,
) -> Result<Operand, Stop>
    ensures ok { IfOk result (λ made. expression_of made.expr ≡ binary (place (expression_of left.expr)) op (expression_of left.expr) (expression_of right.expr)) }
    ensures err { IfErr result (IsTooDeep (binary (place (expression_of left.expr)) op (expression_of left.expr) (expression_of right.expr)) i) }
{
    let inside = left.height.max(right.height);
    let at = left.start;
    finish(at, infixed(alloc, op, left.expr, right.expr)?, inside, i)
}

pub fn complete_joined(chain: Chain, operand: Operand, i: u32) -> Result<Operand, Stop>
    ensures ok { IfOk result (λ made. expression_of made.expr ≡ joined chain.at chain.op (and_expression (expressions_of chain.operands.list) (expression_of operand.expr))) }
    ensures err { IfErr result (IsTooDeep (joined chain.at chain.op (and_expression (expressions_of chain.operands.list) (expression_of operand.expr))) i) }
{
    let Operands { list, height } = with_expression(chain.operands, operand)?;
    finish(chain.at, joined(chain.op, list), height, i)
}

pub fn complete_body(
    alloc: Global,
    binder: Binder,
    operand: Operand,
    i: u32,
) -> Result<Operand, Stop>
    ensures ok { IfOk result (λ made. expression_of made.expr ≡ quantified binder.at binder.quant binder.order (variables_of binder.bounds.list) (expression_of operand.expr)) }
    ensures err { IfErr result (IsTooDeep (quantified binder.at binder.quant binder.order (variables_of binder.bounds.list) (expression_of operand.expr)) i) }
{
    let inside = binder.bounds.height.max(operand.height);
    let body = boxed(alloc, operand.expr)?;
    let form = Form::Bind(binder.quant, binder.order, binder.bounds.list, body);
    finish(binder.at, form, inside, i)
}

pub fn complete_let(
    alloc: Global,
    locals: Locals,
    operand: Operand,
    i: u32,
) -> Result<Operand, Stop>
    ensures ok { IfOk result (λ made. expression_of made.expr ≡ let_in locals.at locals.order (parts_of locals.parts.list) (expression_of operand.expr)) }
    ensures err { IfErr result (IsTooDeep (let_in locals.at locals.order (parts_of locals.parts.list) (expression_of operand.expr)) i) }
{
    let inside = locals.parts.height.max(operand.height);
    let body = boxed(alloc, operand.expr)?;
    let form = Form::Let(locals.order, locals.parts.list, body);
    finish(locals.at, form, inside, i)
}
