ghost use Rattle.std.specs.Prelude.{◌≡◌, ◌++◌, OnOk, string_bytes};
ghost use Rattle.ms_list.specs.declared.at.At.{At};
ghost use Rattle.ms_parse_grammar.specs.declared.operator.Bracket.TheVariants.{Export};
ghost use Rattle.ms_parse_grammar.specs.declared.operator.Binary.TheVariants.{Relation};
ghost use Rattle.ms_parse_grammar.specs.Symbol.{close_round, colon, comma, infix_operator, mark_symbol, name, prefix_operator};
ghost use Rattle.ms_logic.specs.declared.mode.Rel.TheVariants.{Equal, Member};
ghost use Rattle.ms_parse_grammar.specs.Tree as tree;
ghost use Rattle.ms_parse_grammar.specs.View.{domain_of, expression_of, expressions_of, part_of, parts_of, variable_of, variables_of};
ghost use Rattle.ms_parse_print.specs.inner.Printed.{printed, printed_all, printed_atom, printed_domain, printed_opening, printed_pair, printed_parts, printed_variables, separated, spelled};

use crate::token::{
    push_infix, push_let, push_mark, push_name, push_number, push_opening, push_prefix,
    push_quantifier, push_quoted, push_shift, push_unsigned, push_word,
};
use ms_list::{Boxed, List, Text};
use ms_logic::{Bound, Expr, Form, LetPart, PlacedInt, Rename};
use ms_parse_grammar::{Binary, Prefix};
use ms_text::{Keyword, Mark};
use std::alloc::AllocError;

/// The symbol between two entries of a list, where an entry stands before this place.
pub fn push_between(text: &mut String, separator: Mark, place: usize) -> Result<(), AllocError>
    ensures { OnOk result (string_bytes text.new ≡ string_bytes text.old ++ separated spelled (mark_symbol separator) place) }
{
    if place == 0 {
        return Ok(());
    }
    push_mark(text, separator)
}

fn push_pconst(text: &mut String, n: &PlacedInt) -> Result<(), AllocError>
    ensures { OnOk result (string_bytes text.new ≡ string_bytes text.old ++ printed_atom spelled (tree.pconst n.now)) }
{
    push_opening(text, Keyword::PConst)?;
    push_unsigned(text, n)?;
    push_mark(text, Mark::CloseParenthesis)
}

fn push_pair(text: &mut String, pair: &Rename) -> Result<(), AllocError>
    ensures { OnOk result (string_bytes text.new ≡ string_bytes text.old ++ printed_pair spelled pair.now) }
{
    push_mark(text, Mark::Comma)?;
    push_name(text, &pair.left)?;
    push_mark(text, Mark::Arrow)?;
    push_name(text, &pair.right)
}

fn push_import(text: &mut String, file: &Text, pairs: &[Rename]) -> Result<(), AllocError>
    ensures { OnOk result (string_bytes text.new ≡ string_bytes text.old ++ printed_atom spelled (tree.imported file.now pairs.now)) }
{
    push_opening(text, Keyword::Import)?;
    push_quoted(text, file)?;
    for pair in pairs {
        push_pair(text, pair)?;
    }
    push_mark(text, Mark::CloseParenthesis)
}

fn push_export(text: &mut String, file: &Text) -> Result<(), AllocError>
    ensures { (at : At) → OnOk result (string_bytes text.new ≡ string_bytes text.old ++ printed_opening spelled (Export at file.now)) }
{
    push_opening(text, Keyword::Export)?;
    push_quoted(text, file)?;
    push_mark(text, Mark::Comma)
}

/// An expression behind the text.
#[cycle(print_expression)]
pub fn push_expression(text: &mut String, e: &Expr) -> Result<(), AllocError>
    ensures { OnOk result (string_bytes text.new ≡ string_bytes text.old ++ printed spelled (expression_of e.now)) }
{
    match &e.form {
        Form::True => push_word(text, Keyword::True),
        Form::False => push_word(text, Keyword::False),
        Form::Whole => push_mark(text, Mark::Dollar),
        Form::EmptySet => push_word(text, Keyword::Empty),
        Form::Name(called) => push_name(text, called),
        Form::Number(value) => push_number(text, *value),
        Form::Pconst(n) => push_pconst(text, n),
        Form::Paren(inner) => {
            push_mark(text, Mark::OpenParenthesis)?;
            push_closed(text, inner)
        }
        Form::Literal(elements) => {
            push_mark(text, Mark::OpenBrace)?;
            push_entries(text, elements, Mark::CloseBrace)
        }
        Form::Call(called, arguments) => {
            push_name(text, called)?;
            push_mark(text, Mark::OpenParenthesis)?;
            push_entries(text, arguments, Mark::CloseParenthesis)
        }
        Form::Not(operand) => push_behind(text, Prefix::Negation, operand),
        Form::And(operands) => push_all(text, Mark::And, operands.slice()),
        Form::Or(operands) => push_all(text, Mark::Or, operands.slice()),
        Form::Implies(left, right) => {
            push_left(text, left, Binary::Implication)?;
            push_expression(text, right.get())
        }
        Form::Iff(left, right) => {
            push_left(text, left, Binary::Equivalence)?;
            push_expression(text, right.get())
        }
        Form::Relation(rel, left, right) => {
            push_left(text, left, Binary::Relation(*rel))?;
            push_expression(text, right.get())
        }
        Form::IsEmpty(inner) => {
            push_opening(text, Keyword::Empty)?;
            push_closed(text, inner)
        }
        Form::Union(left, right) => {
            push_left(text, left, Binary::Union)?;
            push_expression(text, right.get())
        }
        Form::Inter(left, right) => {
            push_left(text, left, Binary::Intersection)?;
            push_expression(text, right.get())
        }
        Form::Minus(left, right) => {
            push_left(text, left, Binary::Difference)?;
            push_expression(text, right.get())
        }
        Form::Shift(operand, n) => {
            push_expression(text, operand.get())?;
            push_shift(text, n)
        }
        Form::Min(operand) => push_behind(text, Prefix::Minimum, operand),
        Form::Max(operand) => push_behind(text, Prefix::Maximum, operand),
        Form::Bind(quant, order, bounds, body) => {
            push_quantifier(text, *quant, *order)?;
            push_bounds(text, bounds.slice())?;
            push_body(text, body)
        }
        Form::Let(order, parts, body) => {
            push_let(text, *order)?;
            push_parts(text, parts.slice())?;
            push_let_body(text, body)
        }
        Form::Restrict(inner) => {
            push_opening(text, Keyword::Restrict)?;
            push_closed(text, inner)
        }
        Form::Import(file, pairs) => push_import(text, file, pairs.slice()),
        Form::Export(_, file, inner) => {
            push_export(text, file)?;
            push_closed(text, inner)
        }
    }
}

// An expression and the bracket behind it.
#[cycle(print_expression)]
fn push_closed(text: &mut String, inner: &Boxed<Expr>) -> Result<(), AllocError>
    ensures { OnOk result (string_bytes text.new ≡ string_bytes text.old ++ (printed spelled (expression_of inner.now) ++ spelled close_round)) }
{
    push_expression(text, inner.get())?;
    push_mark(text, Mark::CloseParenthesis)
}

// Entries with commas between them, and the bracket behind them.
#[cycle(print_expression)]
fn push_entries(text: &mut String, entries: &List<Expr>, bracket: Mark) -> Result<(), AllocError>
    ensures { OnOk result (string_bytes text.new ≡ string_bytes text.old ++ (printed_all spelled comma (expressions_of entries.now) ++ spelled (mark_symbol bracket))) }
{
    push_all(text, Mark::Comma, entries.slice())?;
    push_mark(text, bracket)
}

// An operator and its operand.
#[cycle(print_expression)]
fn push_behind(text: &mut String, op: Prefix, operand: &Boxed<Expr>) -> Result<(), AllocError>
    ensures { OnOk result (string_bytes text.new ≡ string_bytes text.old ++ (spelled (prefix_operator op) ++ printed spelled (expression_of operand.now))) }
{
    push_prefix(text, op)?;
    push_expression(text, operand.get())
}

// An expression and the operator behind it.
#[cycle(print_expression)]
fn push_left(text: &mut String, left: &Boxed<Expr>, op: Binary) -> Result<(), AllocError>
    ensures { OnOk result (string_bytes text.new ≡ string_bytes text.old ++ (printed spelled (expression_of left.now) ++ spelled (infix_operator op))) }
{
    push_expression(text, left.get())?;
    push_infix(text, op)
}

// The body of a binder, and the symbol before it.
#[cycle(print_expression)]
fn push_body(text: &mut String, body: &Boxed<Expr>) -> Result<(), AllocError>
    ensures { OnOk result (string_bytes text.new ≡ string_bytes text.old ++ (spelled colon ++ printed spelled (expression_of body.now))) }
{
    push_mark(text, Mark::Colon)?;
    push_expression(text, body.get())
}

// The body of a `let`, and the word before it.
#[cycle(print_expression)]
fn push_let_body(text: &mut String, body: &Boxed<Expr>) -> Result<(), AllocError>
    ensures { OnOk result (string_bytes text.new ≡ string_bytes text.old ++ (spelled (infix_operator (Relation Member)) ++ printed spelled (expression_of body.now))) }
{
    push_word(text, Keyword::In)?;
    push_expression(text, body.get())
}

// Expressions with a mark between them.
#[cycle(print_expression)]
fn push_all(text: &mut String, separator: Mark, es: &[Expr]) -> Result<(), AllocError>
    ensures { OnOk result (string_bytes text.new ≡ string_bytes text.old ++ printed_all spelled (mark_symbol separator) (expressions_of es.now)) }
{
    for (i, e) in es.iter().enumerate() {
        push_between(text, separator, i)?;
        push_expression(text, e)?;
    }
    Ok(())
}

// `where` and the restriction, if there is one.
#[cycle(print_expression)]
pub fn push_domain(text: &mut String, domain: &Option<Boxed<Expr>>) -> Result<(), AllocError>
    ensures { OnOk result (string_bytes text.new ≡ string_bytes text.old ++ printed_domain spelled (domain_of domain.now)) }
{
    match domain {
        None => Ok(()),
        Some(restriction) => {
            push_word(text, Keyword::Where)?;
            push_expression(text, restriction.get())
        }
    }
}

// A variable, and its restriction if it has one.
#[cycle(print_expression)]
pub fn push_bound(text: &mut String, bound: &Bound) -> Result<(), AllocError>
    ensures { OnOk result (string_bytes text.new ≡ string_bytes text.old ++ (spelled (name (variable_of bound.now).name) ++ printed_domain spelled (variable_of bound.now).domain)) }
{
    push_name(text, &bound.name)?;
    push_domain(text, &bound.domain)
}

// Variables with commas between them.
#[cycle(print_expression)]
pub fn push_bounds(text: &mut String, bounds: &[Bound]) -> Result<(), AllocError>
    ensures { OnOk result (string_bytes text.new ≡ string_bytes text.old ++ printed_variables spelled (variables_of bounds.now)) }
{
    for (i, bound) in bounds.iter().enumerate() {
        push_between(text, Mark::Comma, i)?;
        push_bound(text, bound)?;
    }
    Ok(())
}

// A name of a `let` with its right side.
#[cycle(print_expression)]
fn push_part(text: &mut String, part: &LetPart) -> Result<(), AllocError>
    ensures { OnOk result (string_bytes text.new ≡ string_bytes text.old ++ (spelled (name (part_of part.now).name) ++ spelled (infix_operator (Relation Equal)) ++ printed spelled (part_of part.now).value)) }
{
    push_name(text, &part.name)?;
    push_mark(text, Mark::Equal)?;
    push_expression(text, &part.value)
}

// The names of a `let` with their right sides, and commas between them.
#[cycle(print_expression)]
fn push_parts(text: &mut String, parts: &[LetPart]) -> Result<(), AllocError>
    ensures { OnOk result (string_bytes text.new ≡ string_bytes text.old ++ printed_parts spelled (parts_of parts.now)) }
{
    for (i, part) in parts.iter().enumerate() {
        push_between(text, Mark::Comma, i)?;
        push_part(text, part)?;
    }
    Ok(())
}
