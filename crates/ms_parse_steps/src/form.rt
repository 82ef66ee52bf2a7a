ghost use Rattle.std.specs.Prelude.{◌≡◌, IfOk, IfErr};
ghost use Rattle.ms_list.specs.declared.at.At.{At};
ghost use Rattle.ms_parse_grammar.specs.Tree.{prefixed, binary, joined, enclosed, listed};
ghost use Rattle.ms_parse_grammar.specs.View.{expression_of, expressions_of, form_of};
ghost use Rattle.ms_parse_steps.specs.declared.stop.Stop.TheVariants.{Memory};

use crate::memory::boxed;
use crate::stop::Stop;
use ms_list::{At, List};
use ms_logic::{Expr, Form};
use ms_parse_grammar::{Binary, Bracket, Junction, Listing, Prefix};
use std::alloc::Global;

/// The form at a place.
pub fn placed(at: At, form: Form) -> Expr
    ensures { expression_of result ≡ form_of form at }
{
    Expr { at, form }
}

pub fn prefixed(alloc: Global, op: Prefix, expr: Expr) -> Result<Form, Stop>
    ensures ok { IfOk result (λ form. (at : At) → form_of form at ≡ prefixed at op (expression_of expr)) }
    ensures err { IfErr result (λ stop. stop ≡ Memory) }
{
    let operand = boxed(alloc, expr)?;
    match op {
        Prefix::Negation => Ok(Form::Not(operand)),
        Prefix::Minimum => Ok(Form::Min(operand)),
        Prefix::Maximum => Ok(Form::Max(operand)),
    }
}

pub fn infixed(alloc: Global, op: Binary, left: Expr, right: Expr) -> Result<Form, Stop>
    ensures ok { IfOk result (λ form. (at : At) → form_of form at ≡ binary at op (expression_of left) (expression_of right)) }
    ensures err { IfErr result (λ stop. stop ≡ Memory) }
{
    let l = boxed(alloc, left)?;
    let r = boxed(alloc, right)?;
    match op {
        Binary::Implication => Ok(Form::Implies(l, r)),
        Binary::Equivalence => Ok(Form::Iff(l, r)),
        Binary::Relation(rel) => Ok(Form::Relation(rel, l, r)),
        Binary::Union => Ok(Form::Union(l, r)),
        Binary::Intersection => Ok(Form::Inter(l, r)),
        Binary::Difference => Ok(Form::Minus(l, r)),
    }
}

pub fn joined(op: Junction, operands: List<Expr>) -> Form
    ensures { (at : At) → form_of result at ≡ joined at op (expressions_of operands) }
{
    match op {
        Junction::Conjunction => Form::And(operands),
        Junction::Disjunction => Form::Or(operands),
    }
}

pub fn enclosed(alloc: Global, bracket: Bracket, expr: Expr) -> Result<Form, Stop>
    ensures ok { IfOk result (λ form. (at : At) → form_of form at ≡ enclosed at bracket (expression_of expr)) }
    ensures err { IfErr result (λ stop. stop ≡ Memory) }
{
    let inner = boxed(alloc, expr)?;
    match bracket {
        Bracket::Parentheses => Ok(Form::Paren(inner)),
        Bracket::Emptiness => Ok(Form::IsEmpty(inner)),
        Bracket::Restriction => Ok(Form::Restrict(inner)),
        Bracket::Export(at, file) => Ok(Form::Export(at, file, inner)),
    }
}

pub fn listed(listing: Listing, list: List<Expr>) -> Form
    ensures { (at : At) → form_of result at ≡ listed at listing (expressions_of list) }
{
    match listing {
        Listing::Literal => Form::Literal(list),
        Listing::Call(name) => Form::Call(name, list),
    }
}
