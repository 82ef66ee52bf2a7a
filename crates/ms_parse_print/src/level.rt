//! How tightly an expression binds, and whether it ends with the body of a binder.

ghost use Rattle.std.specs.Prelude.{◌≡◌};
ghost use Rattle.ms_parse_grammar.specs.Grammar.{ends_open, last_ends_open, level};
ghost use Rattle.ms_parse_grammar.specs.View.{expression_of, expressions_of};

use ms_logic::{Expr, Form};

/// The level of an expression, from 0, the loosest.
pub fn level(e: &Expr) -> u8
    ensures { result ≡ level (expression_of e.now) }
{
    match &e.form {
        Form::Iff(_, _) => 0,
        Form::Implies(_, _) => 1,
        Form::Or(_) => 2,
        Form::And(_) => 3,
        Form::Not(_) | Form::Bind(_, _, _, _) | Form::Let(_, _, _) => 4,
        Form::Relation(_, _, _) => 5,
        Form::Union(_, _) => 6,
        Form::Inter(_, _) => 7,
        Form::Minus(_, _) => 8,
        Form::Shift(_, _) => 9,
        Form::Min(_) | Form::Max(_) => 10,
        Form::True
        | Form::False
        | Form::Whole
        | Form::EmptySet
        | Form::Name(_)
        | Form::Number(_)
        | Form::Pconst(_)
        | Form::Paren(_)
        | Form::Literal(_)
        | Form::Call(_, _)
        | Form::IsEmpty(_)
        | Form::Restrict(_)
        | Form::Import(_, _)
        | Form::Export(_, _, _) => 11,
    }
}

/// Whether the expression ends with the body of a binder.
#[cycle(end_of_expression)]
pub fn ends_open(e: &Expr) -> bool
    ensures { result ≡ ends_open (expression_of e.now) }
{
    match &e.form {
        Form::Bind(_, _, _, _) | Form::Let(_, _, _) => true,
        Form::Not(operand) => ends_open(operand.get()),
        Form::Min(operand) => ends_open(operand.get()),
        Form::Max(operand) => ends_open(operand.get()),
        Form::Implies(_, right) => ends_open(right.get()),
        Form::Iff(_, right) => ends_open(right.get()),
        Form::Relation(_, _, right) => ends_open(right.get()),
        Form::Union(_, right) => ends_open(right.get()),
        Form::Inter(_, right) => ends_open(right.get()),
        Form::Minus(_, right) => ends_open(right.get()),
        Form::And(operands) => last_ends_open(operands.slice()),
        Form::Or(operands) => last_ends_open(operands.slice()),
        Form::True
        | Form::False
        | Form::Whole
        | Form::EmptySet
        | Form::Name(_)
        | Form::Number(_)
        | Form::Pconst(_)
        | Form::Paren(_)
        | Form::Literal(_)
        | Form::Call(_, _)
        | Form::IsEmpty(_)
        | Form::Shift(_, _)
        | Form::Restrict(_)
        | Form::Import(_, _)
        | Form::Export(_, _, _) => false,
    }
}

#[cycle(end_of_expression)]
fn last_ends_open(es: &[Expr]) -> bool
    ensures { result ≡ last_ends_open (expressions_of es.now) }
{
    if es.is_empty() {
        return false;
    }
    ends_open(&es[es.len() - 1])
}
