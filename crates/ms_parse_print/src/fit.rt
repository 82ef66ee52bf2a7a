//! Whether an expression can be printed.

ghost use Rattle.std.specs.Prelude.{◌≡◌, ◌≤◌, ◌↔◌, false, not, ◌||◌, IsTrue};
ghost use Rattle.ms_parse_grammar.specs.declared.operator.Binary.TheVariants.{Relation};
ghost use Rattle.ms_parse_grammar.specs.Grammar.{AreOfOrder, HasTwo, IsPartList, IsVariableList, ends_open, is_in, level};
ghost use Rattle.ms_parse_grammar.specs.View.{domain_of, expression_of, expressions_of, parts_of, variables_of};
ghost use Rattle.ms_parse_print.specs.inner.Passes.{AllPass, DomainPasses, OperandsPass, PartPasses, PartsPass, Passes, VariablePasses, VariablesPass};

use crate::level::{ends_open, level};
use crate::said::{can_import, can_name, can_quote, can_say_int, can_say_number, can_say_unsigned};
use ms_list::Boxed;
use ms_logic::{Bound, Expr, Form, LetPart, Order, Rel};

// Whether the relation may stand where `in` is free to stand or not.
fn may_stand(rel: Rel, free: bool) -> bool
    ensures { IsTrue result ↔ IsTrue (not (is_in (Relation rel)) || free) }
{
    match rel {
        Rel::Member => free,
        _ => true,
    }
}

// Whether the expression binds so tightly and does not end with the body of a binder.
fn stands_left(e: &Expr, least: u8) -> bool
    ensures { IsTrue result ↔ ((least ≤ level (expression_of e.now)) × (ends_open (expression_of e.now) ≡ false)) }
{
    level(e) >= least && !ends_open(e)
}

// Whether the sides of an operator bind so tightly, and the left one does not end with the body of a binder.
fn sides_bind(left: &Boxed<Expr>, least_left: u8, right: &Boxed<Expr>, least_right: u8) -> bool
    ensures { IsTrue result ↔ ((least_left ≤ level (expression_of left.now)) × (ends_open (expression_of left.now) ≡ false) × (least_right ≤ level (expression_of right.now))) }
{
    stands_left(left.get(), least_left) && level(right.get()) >= least_right
}

fn has_two(es: &[Expr]) -> bool
    ensures { IsTrue result ↔ HasTwo (expressions_of es.now) }
{
    es.len() >= 2
}

fn has_part(parts: &[LetPart]) -> bool
    ensures { IsTrue result ↔ IsPartList (parts_of parts.now) }
{
    parts.len() >= 1
}

fn has_variable(bounds: &[Bound]) -> bool
    ensures { IsTrue result ↔ IsVariableList (variables_of bounds.now) }
{
    bounds.len() >= 1
}

fn same_order(a: Order, b: Order) -> bool
    ensures { IsTrue result ↔ (a ≡ b) }
{
    a == b
}

fn are_of_order(bounds: &[Bound], order: Order) -> bool
    ensures { IsTrue result ↔ AreOfOrder order (variables_of bounds.now) }
{
    for bound in bounds {
        if !same_order(bound.order, order) {
            return false;
        }
    }
    true
}

/// Whether there is a variable, and each has this order.
pub fn are_alike(bounds: &[Bound], order: Order) -> bool
    ensures { IsTrue result ↔ (IsVariableList (variables_of bounds.now) × AreOfOrder order (variables_of bounds.now)) }
{
    has_variable(bounds) && are_of_order(bounds, order)
}

/// Whether an expression can be printed and is no deeper than the room; where `in` is not free, it stands only in brackets.
/// The recursion goes no deeper than the room, however deep the expression is.
#[cycle(fit_of_expression)]
#[tactic(auto, using(crate::proofs::Passing::no_room))]
pub fn passes(e: &Expr, room: u32, free: bool) -> bool
    ensures { IsTrue result ↔ Passes room free (expression_of e.now) }
{
    if room == 0 {
        return false;
    }
    let room = room - 1;
    match &e.form {
        Form::True => true,
        Form::False => true,
        Form::Whole => true,
        Form::EmptySet => true,
        Form::Name(called) => can_name(called),
        Form::Number(value) => can_say_number(*value),
        Form::Pconst(n) => can_say_unsigned(n),
        Form::Paren(inner) => passes(inner.get(), room, true),
        Form::Literal(elements) => all_pass(elements.slice(), room),
        Form::Call(called, arguments) => can_name(called) && all_pass(arguments.slice(), room),
        Form::Not(operand) => level(operand.get()) >= 4 && passes(operand.get(), room, free),
        Form::And(operands) => operands_pass(operands.slice(), 4, room, free),
        Form::Or(operands) => operands_pass(operands.slice(), 3, room, free),
        Form::Implies(left, right) => {
            passes(left.get(), room, free)
                && passes(right.get(), room, free)
                && sides_bind(left, 2, right, 1)
        }
        Form::Iff(left, right) => {
            passes(left.get(), room, free)
                && passes(right.get(), room, free)
                && sides_bind(left, 0, right, 1)
        }
        Form::Relation(rel, left, right) => {
            may_stand(*rel, free)
                && passes(left.get(), room, free)
                && passes(right.get(), room, free)
                && sides_bind(left, 6, right, 6)
        }
        Form::IsEmpty(inner) => passes(inner.get(), room, true),
        Form::Union(left, right) => {
            passes(left.get(), room, free)
                && passes(right.get(), room, free)
                && sides_bind(left, 6, right, 7)
        }
        Form::Inter(left, right) => {
            passes(left.get(), room, free)
                && passes(right.get(), room, free)
                && sides_bind(left, 7, right, 8)
        }
        Form::Minus(left, right) => {
            passes(left.get(), room, free)
                && passes(right.get(), room, free)
                && sides_bind(left, 8, right, 9)
        }
        Form::Shift(operand, n) => {
            can_say_int(&n.value)
                && passes(operand.get(), room, free)
                && stands_left(operand.get(), 9)
        }
        Form::Min(operand) => level(operand.get()) >= 11 && passes(operand.get(), room, free),
        Form::Max(operand) => level(operand.get()) >= 11 && passes(operand.get(), room, free),
        Form::Bind(_, order, bounds, body) => {
            bounds_pass(bounds.slice(), *order, room, free) && passes(body.get(), room, free)
        }
        Form::Let(_, parts, body) => {
            parts_pass(parts.slice(), room) && passes(body.get(), room, free)
        }
        Form::Restrict(inner) => passes(inner.get(), room, true),
        Form::Import(file, pairs) => can_import(file, pairs.slice()),
        Form::Export(_, file, inner) => can_quote(file) && passes(inner.get(), room, true),
    }
}

// Whether expressions in brackets can be printed.
#[cycle(fit_of_expression)]
fn all_pass(es: &[Expr], room: u32) -> bool
    ensures { IsTrue result ↔ AllPass room (expressions_of es.now) }
{
    for e in es {
        if !passes(e, room, true) {
            return false;
        }
    }
    true
}

// Whether operands of `&` or `|` can be printed.
#[cycle(fit_of_expression)]
fn operands_pass(es: &[Expr], least: u8, room: u32, free: bool) -> bool
    ensures { IsTrue result ↔ (HasTwo (expressions_of es.now) × OperandsPass room free least (expressions_of es.now)) }
{
    if !has_two(es) {
        return false;
    }
    let mut open_end = false;
    for e in es {
        if open_end || level(e) < least || !passes(e, room, free) {
            return false;
        }
        open_end = ends_open(e);
    }
    true
}

#[cycle(fit_of_expression)]
fn domain_passes(domain: &Option<Boxed<Expr>>, room: u32, free: bool) -> bool
    ensures { IsTrue result ↔ DomainPasses room free (domain_of domain.now) }
{
    match domain {
        None => true,
        Some(restriction) => passes(restriction.get(), room, free),
    }
}

#[cycle(fit_of_expression)]
fn variable_passes(bound: &Bound, room: u32, free: bool) -> bool
    ensures { IsTrue result ↔ VariablePasses room free bound.now }
{
    can_name(&bound.name) && domain_passes(&bound.domain, room, free)
}

/// Whether variables with their restrictions can be printed.
#[cycle(fit_of_expression)]
pub fn variables_pass(bounds: &[Bound], room: u32, free: bool) -> bool
    ensures { IsTrue result ↔ VariablesPass room free (variables_of bounds.now) }
{
    for bound in bounds {
        if !variable_passes(bound, room, free) {
            return false;
        }
    }
    true
}

// Whether a binder's variables can be printed.
#[cycle(fit_of_expression)]
fn bounds_pass(bounds: &[Bound], order: Order, room: u32, free: bool) -> bool
    ensures { IsTrue result ↔ ((IsVariableList (variables_of bounds.now) × AreOfOrder order (variables_of bounds.now)) × VariablesPass room free (variables_of bounds.now)) }
{
    are_alike(bounds, order) && variables_pass(bounds, room, free)
}

#[cycle(fit_of_expression)]
fn part_passes(part: &LetPart, room: u32) -> bool
    ensures { IsTrue result ↔ PartPasses room part.now }
{
    can_name(&part.name) && passes(&part.value, room, false)
}

// Whether the parts of a `let` can be printed.
#[cycle(fit_of_expression)]
fn parts_pass(parts: &[LetPart], room: u32) -> bool
    ensures { IsTrue result ↔ (IsPartList (parts_of parts.now) × PartsPass room (parts_of parts.now)) }
{
    if !has_part(parts) {
        return false;
    }
    for part in parts {
        if !part_passes(part, room) {
            return false;
        }
    }
    true
}
