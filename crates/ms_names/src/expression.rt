ghost use Rattle.ms_list.specs.declared.at.At.{At};
ghost use Rattle.ms_logic.specs.declared.mode.Order.{Order};
ghost use Rattle.ms_logic.specs.Tree as tree;
ghost use Rattle.ms_logic.specs.Tree.{truth_argument};
ghost use Rattle.ms_logic.specs.View.{argument_of, declaration_of};
ghost use Rattle.ms_names.specs.inner.Operation.{of_all, of_one, of_two};
ghost use Rattle.ms_names_rules.specs.Before.{after, after_all, after_parts};
ghost use Rattle.ms_names_rules.specs.inner.Binder.{quantified_over, restricted_variable, restricted_variables, restriction_in, sides_of, typed_sides};
ghost use Rattle.ms_names_rules.specs.inner.Lists.{arguments_of};
ghost use Rattle.ms_names_rules.specs.Order.{formula_wanted};
ghost use Rattle.ms_names_rules.specs.Occurrence.{inside_arguments, inside_parts, occurrences};
ghost use Rattle.ms_names_rules.specs.Scope.{bind, count};
ghost use Rattle.ms_parse_grammar.specs.declared.operator.Binary.TheVariants.{Relation};
ghost use Rattle.ms_parse_grammar.specs.declared.operator.Bracket.TheVariants.{Export};
ghost use Rattle.ms_parse_grammar.specs.declared.operator.Listing.TheVariants.{Literal, Call};
ghost use Rattle.ms_parse_grammar.specs.Tree.{binary, shifted, enclosed, listed, quantified, let_in};
ghost use Rattle.ms_names_rules.specs.Typed.{as_many, both, formula_in, typed, typed_arguments};
ghost use Rattle.ms_parse_grammar.specs.View.{variable_of, variables_of, expression_of, parts_of, expressions_of};
ghost use Rattle.ms_names_rules.specs.declared.meaning.Meaning.TheVariants.{Variable};
ghost use Rattle.ms_names_scopes.specs.inner.Found.{after_restriction, after_restrictions, formed, passed, unbound};
ghost use Rattle.std.specs.Option.{option_map};
ghost use Rattle.std.specs.Prelude.{◌≡◌, ◌∷◌, ◌++◌, [], map, IfOk, OnOk};

use crate::call::called;
use crate::name::{lone_name, lone_pconst};
use crate::operation::{Binary, Connective, Unary};
use crate::variable::{next_number, with_restricted, with_unrestricted};
use ms_list::{At, List, Name, NoMemory, Text};
use ms_logic::{
    Arg, Binding, Bound, Expr, Form, Formula, LetPart, Order, Param, PlacedInt, Quant, Rel, Term1,
    Term2,
};
use ms_names_rules::{Meaning, Wanted};
use ms_names_scopes::Checker;
use ms_names_typing::{
    exported, literal, more_arguments, more_bindings, more_formulas, more_numbers, parameter_at,
    quantified, relation, shift, where_let,
};

const FORMULA: Wanted = Wanted::Exactly(Order::Zero);

const NUMBER: Wanted = Wanted::Exactly(Order::One);

/// An expression in a place that wants an order: all that is wrong in it, what it reads, and what it becomes.
#[cycle(expression)]
pub(crate) fn expression(
    checker: &mut Checker,
    wanted: Wanted,
    e: &Expr,
) -> Result<Option<Arg>, NoMemory>
    ensures state { OnOk result (checker.new ≡ passed checker.old
        (occurrences checker.old.scope checker.old.before wanted (expression_of e.now))
        (after checker.old.before (expression_of e.now))) }
    ensures value { IfOk result (λ value. option_map argument_of value ≡ typed checker.old.scope checker.old.before (expression_of e.now)) }
{
    checker.check_order(wanted, e);
    form(checker, e)
}

// The same but for the order that is wanted. Expressions in one another stand on the stack in one another, so each kind of
// form with expressions inside is a function of its own, which is not inlined: a level takes what its own kind takes, and
// not what all kinds would take together.
#[cycle(expression)]
fn form(checker: &mut Checker, e: &Expr) -> Result<Option<Arg>, NoMemory>
    ensures state { OnOk result (checker.new ≡ formed checker.old (expression_of e.now)) }
    ensures value { IfOk result (λ value. option_map argument_of value ≡ typed checker.old.scope checker.old.before (expression_of e.now)) }
{
    match &e.form {
        Form::True => Ok(Some(Arg::Zero(Formula::True))),
        Form::False => Ok(Some(Arg::Zero(Formula::False))),
        Form::Whole => {
            checker.check_whole(e.at);
            Ok(Some(Arg::Two(Term2::Whole)))
        }
        Form::EmptySet => Ok(Some(Arg::Two(Term2::EmptySet))),
        Form::Name(name) => lone_name(checker, e.at, name),
        Form::Number(number) => {
            checker.check_number(e.at, *number);
            Ok(Some(Arg::One(Term1::Number(*number))))
        }
        Form::Pconst(int) => lone_pconst(checker, int),
        Form::Paren(inner) => expression(checker, Wanted::Anything, inner.get()),
        Form::Literal(elements) => literal_of(checker, elements.slice()),
        Form::Call(name, arguments) => call_of(checker, e.at, name, arguments.slice()),
        Form::Not(inner) => of_one(checker, Unary::Not, inner.get()),
        Form::And(operands) => of_all(checker, Connective::And, operands.slice()),
        Form::Or(operands) => of_all(checker, Connective::Or, operands.slice()),
        Form::Implies(left, right) => of_two(checker, Binary::Implies, left.get(), right.get()),
        Form::Iff(left, right) => of_two(checker, Binary::Iff, left.get(), right.get()),
        Form::Relation(rel, left, right) => related(checker, *rel, left.get(), right.get()),
        Form::IsEmpty(inner) => of_one(checker, Unary::IsEmpty, inner.get()),
        Form::Union(left, right) => of_two(checker, Binary::Union, left.get(), right.get()),
        Form::Inter(left, right) => of_two(checker, Binary::Inter, left.get(), right.get()),
        Form::Minus(left, right) => of_two(checker, Binary::Minus, left.get(), right.get()),
        Form::Shift(inner, int) => shifted(checker, inner.get(), int),
        Form::Min(inner) => of_one(checker, Unary::Min, inner.get()),
        Form::Max(inner) => of_one(checker, Unary::Max, inner.get()),
        Form::Bind(quant, _, bounds, body) => binder(checker, *quant, bounds.slice(), body.get()),
        Form::Let(order, parts, body) => let_in(checker, *order, parts.slice(), body.get()),
        Form::Restrict(inner) => of_one(checker, Unary::Restrict, inner.get()),
        Form::Import(file, renames) => checker.import(e.at, file, renames.slice()),
        Form::Export(at, file, inner) => export(checker, e.at, *at, file, inner.get()),
    }
}

// An operation on one expression.
#[cycle(expression)]
#[inline(never)]
fn of_one(checker: &mut Checker, operation: Unary, operand: &Expr) -> Result<Option<Arg>, NoMemory>
    ensures state { (at : At) → OnOk result (checker.new ≡ formed checker.old (of_one operation at (expression_of operand.now))) }
    ensures value { (at : At) → IfOk result (λ value. option_map argument_of value
        ≡ typed checker.old.scope checker.old.before (of_one operation at (expression_of operand.now))) }
{
    let operand = expression(checker, operation.wanted(), operand)?;
    operation.made(checker.alloc, operand)
}

// An operation on two expressions of one order.
#[cycle(expression)]
#[inline(never)]
fn of_two(
    checker: &mut Checker,
    operation: Binary,
    left: &Expr,
    right: &Expr,
) -> Result<Option<Arg>, NoMemory>
    ensures state { (at : At) → OnOk result (checker.new ≡ formed checker.old (of_two operation at (expression_of left.now) (expression_of right.now))) }
    ensures value { (at : At) → IfOk result (λ value. option_map argument_of value
        ≡ typed checker.old.scope checker.old.before (of_two operation at (expression_of left.now) (expression_of right.now))) }
{
    let left = expression(checker, operation.wanted(), left)?;
    let right = expression(checker, operation.wanted(), right)?;
    operation.made(checker.alloc, left, right)
}

// `&` or `|` over its operands.
#[cycle(expression)]
#[inline(never)]
fn of_all(
    checker: &mut Checker,
    operation: Connective,
    operands: &[Expr],
) -> Result<Option<Arg>, NoMemory>
    ensures state { (at : At) → OnOk result (checker.new ≡ formed checker.old (of_all operation at (expressions_of operands.now))) }
    ensures value { (at : At) → IfOk result (λ value. option_map argument_of value
        ≡ typed checker.old.scope checker.old.before (of_all operation at (expressions_of operands.now))) }
{
    let mut made = Some(List::new(checker.alloc));
    for operand in operands {
        let value = expression(checker, FORMULA, operand)?;
        made = more_formulas(made, value)?;
    }
    Ok(operation.made(made))
}

// A literal, by its elements.
#[cycle(expression)]
#[inline(never)]
fn literal_of(checker: &mut Checker, elements: &[Expr]) -> Result<Option<Arg>, NoMemory>
    ensures state { (at : At) → OnOk result (checker.new ≡ formed checker.old (listed at Literal (expressions_of elements.now))) }
    ensures value { (at : At) → IfOk result (λ value. option_map argument_of value
        ≡ typed checker.old.scope checker.old.before (listed at Literal (expressions_of elements.now))) }
{
    let mut made = Some(List::new(checker.alloc));
    for element in elements {
        let value = expression(checker, NUMBER, element)?;
        made = more_numbers(made, value)?;
    }
    Ok(literal(made))
}

// A relation between two expressions.
#[cycle(expression)]
#[inline(never)]
fn related(
    checker: &mut Checker,
    rel: Rel,
    left: &Expr,
    right: &Expr,
) -> Result<Option<Arg>, NoMemory>
    ensures state { (at : At) → OnOk result (checker.new ≡ formed checker.old (binary at (Relation rel) (expression_of left.now) (expression_of right.now))) }
    ensures value { (at : At) → IfOk result (λ value. option_map argument_of value
        ≡ typed checker.old.scope checker.old.before (binary at (Relation rel) (expression_of left.now) (expression_of right.now))) }
{
    let order = checker.order(left);
    let first = expression(checker, Wanted::on_the_left(rel), left)?;
    let second = expression(checker, Wanted::on_the_right(rel, order), right)?;
    Ok(relation(rel, first, second))
}

// A number or a set moved by a number.
#[cycle(expression)]
#[inline(never)]
fn shifted(checker: &mut Checker, operand: &Expr, int: &PlacedInt) -> Result<Option<Arg>, NoMemory>
    ensures state { (at : At) → OnOk result (checker.new ≡ formed checker.old (shifted at (expression_of operand.now) int.now)) }
    ensures value { (at : At) → IfOk result (λ value. option_map argument_of value
        ≡ typed checker.old.scope checker.old.before (shifted at (expression_of operand.now) int.now)) }
{
    checker.check_int(int)?;
    let by = checker.value(int);
    checker.check_offset(int.at, by);
    let value = expression(checker, Wanted::NumberOrSet, operand)?;
    shift(checker.alloc, int.minus, by, value)
}

// A call of a name.
#[cycle(expression)]
#[inline(never)]
fn call_of(
    checker: &mut Checker,
    at: At,
    name: &Name,
    arguments: &[Expr],
) -> Result<Option<Arg>, NoMemory>
    ensures state { OnOk result (checker.new ≡ formed checker.old (listed at (Call name.now) (expressions_of arguments.now))) }
    ensures value { IfOk result (λ value. option_map argument_of value
        ≡ typed checker.old.scope checker.old.before (listed at (Call name.now) (expressions_of arguments.now))) }
{
    let parameters = checker.begin_call(at, name, arguments.len())?;
    let allowed = checker.forbid_exports();
    let made = arguments_for(checker, parameters.slice(), arguments)?;
    checker.allow_exports(allowed);
    Ok(called(checker, name, made))
}

// The arguments of a call.
#[cycle(expression)]
#[inline(never)]
fn arguments_for(
    checker: &mut Checker,
    parameters: &[Order],
    arguments: &[Expr],
) -> Result<Option<List<Arg>>, NoMemory>
    ensures state { OnOk result (checker.new ≡ passed checker.old
        (inside_arguments checker.old.scope checker.old.before parameters.now (expressions_of arguments.now))
        (after_all checker.old.before (expressions_of arguments.now))) }
    ensures value { IfOk result (λ made. option_map arguments_of made ≡ as_many (count (expressions_of arguments.now)) parameters.now
        (typed_arguments checker.old.scope checker.old.before parameters.now (expressions_of arguments.now))) }
{
    let mut made = Some(List::new(checker.alloc));
    for (i, argument) in arguments.iter().enumerate() {
        let order = parameter_at(parameters, i);
        let value = expression(checker, Wanted::by_parameter(order), argument)?;
        made = more_arguments(made, order, value)?;
    }
    if arguments.len() < parameters.len() {
        return Ok(None);
    }
    Ok(made)
}

// A quantifier over a list of variables.
#[cycle(expression)]
#[inline(never)]
fn binder(
    checker: &mut Checker,
    quant: Quant,
    bounds: &[Bound],
    body: &Expr,
) -> Result<Option<Arg>, NoMemory>
    ensures state { (at : At) (o : Order) → OnOk result (checker.new ≡ formed checker.old (quantified at quant o (variables_of bounds.now) (expression_of body.now))) }
    ensures value { (at : At) (o : Order) → IfOk result (λ value. option_map argument_of value
        ≡ typed checker.old.scope checker.old.before (quantified at quant o (variables_of bounds.now) (expression_of body.now))) }
{
    let first = checker.begin_bounds(bounds)?;
    let made = variables(checker, first, true, bounds)?;
    under_variables(checker, quant, made, bounds.len(), body)
}

// The body of a quantifier, under so many variables.
#[cycle(expression)]
#[inline(never)]
fn under_variables(
    checker: &mut Checker,
    quant: Quant,
    variables: Option<Vec<Param>>,
    count: usize,
    body: &Expr,
) -> Result<Option<Arg>, NoMemory>
    ensures state { OnOk result (checker.new ≡ unbound count (passed checker.old
        (occurrences checker.old.scope checker.old.before formula_wanted (expression_of body.now))
        (after checker.old.before (expression_of body.now)))) }
    ensures value { IfOk result (λ value. option_map argument_of value
        ≡ option_map (λ f. truth_argument f) (both (quantified_over quant) (option_map (λ ps. map declaration_of ps.items) variables)
        (formula_in (typed checker.old.scope checker.old.before (expression_of body.now))))) }
{
    let body = expression(checker, FORMULA, body)?;
    checker.unbind(count);
    quantified(checker.alloc, quant, variables, body)
}

/// The variables of a list, whose numbers go on from the first, with their restrictions. They stay bound.
#[cycle(expression)]
#[inline(never)]
pub(crate) fn variables(
    checker: &mut Checker,
    first: u32,
    takes_defaults: bool,
    bounds: &[Bound],
) -> Result<Option<Vec<Param>>, NoMemory>
    ensures state { OnOk result (checker.new ≡ after_restrictions checker.old first (variables_of bounds.now)) }
    ensures value { IfOk result (λ made. option_map (λ ps. map declaration_of ps.items) made
        ≡ restricted_variables takes_defaults checker.old.scope first checker.old.before (variables_of bounds.now)) }
{
    let mut made = Some(Vec::new(checker.alloc));
    let mut x = first;
    for bound in bounds {
        made = one_variable(checker, made, x, takes_defaults, bound)?;
        x = next_number(x)?;
    }
    Ok(made)
}

// A variable with its restriction, behind those before it. It stays bound.
#[cycle(expression)]
#[inline(never)]
fn one_variable(
    checker: &mut Checker,
    made: Option<Vec<Param>>,
    x: u32,
    takes_defaults: bool,
    bound: &Bound,
) -> Result<Option<Vec<Param>>, NoMemory>
    ensures state { OnOk result (checker.new ≡ after_restriction checker.old x (variable_of bound.now).order (variable_of bound.now).name (variable_of bound.now).domain) }
    ensures value { IfOk result (λ more. option_map (λ ps. map declaration_of ps.items) more
        ≡ both (λ front v. front ++ v ∷ []) (option_map (λ ps. map declaration_of ps.items) made)
        (option_map (restricted_variable x (variable_of bound.now).order)
        (restriction_in takes_defaults (bind (variable_of bound.now).name (Variable x (variable_of bound.now).order) checker.old.scope)
        checker.old.before (variable_of bound.now).order x (variable_of bound.now).domain))) }
{
    checker.bind(&bound.name, Meaning::Variable(x, bound.order))?;
    match &bound.domain {
        None => with_unrestricted(checker, made, x, bound.order, takes_defaults),
        Some(e) => {
            let allowed = checker.forbid_exports();
            let value = expression(checker, FORMULA, e.get())?;
            checker.allow_exports(allowed);
            with_restricted(made, x, bound.order, value)
        }
    }
}

// A `let`, whose names are seen in its body alone.
#[cycle(expression)]
#[inline(never)]
fn let_in(
    checker: &mut Checker,
    order: Order,
    parts: &[LetPart],
    body: &Expr,
) -> Result<Option<Arg>, NoMemory>
    ensures state { (at : At) → OnOk result (checker.new ≡ formed checker.old (let_in at order (parts_of parts.now) (expression_of body.now))) }
    ensures value { (at : At) → IfOk result (λ value. option_map argument_of value
        ≡ typed checker.old.scope checker.old.before (let_in at order (parts_of parts.now) (expression_of body.now))) }
{
    checker.check_parts(parts)?;
    let first = checker.number_names(parts.len())?;
    let allowed = checker.forbid_exports();
    let made = right_sides(checker, first, order, parts)?;
    checker.bind_parts(first, order, parts)?;
    under_names(checker, made, parts.len(), allowed, body)
}

// The body of a `let`, under so many names. Behind it exports are allowed as they were before.
#[cycle(expression)]
#[inline(never)]
fn under_names(
    checker: &mut Checker,
    sides: Option<List<Binding>>,
    count: usize,
    allowed: bool,
    body: &Expr,
) -> Result<Option<Arg>, NoMemory>
    ensures state { OnOk result (
        let after_body = unbound count (passed checker.old (occurrences checker.old.scope checker.old.before formula_wanted (expression_of body.now)) (after checker.old.before (expression_of body.now))) in
        checker.new ≡ record after_body { scope = record after_body.scope { exports_allowed = allowed } }) }
    ensures value { IfOk result (λ value. option_map argument_of value
        ≡ both (λ there f. truth_argument (tree.where_let there.0 there.1 f)) (option_map sides_of sides)
        (formula_in (typed checker.old.scope checker.old.before (expression_of body.now)))) }
{
    let body = expression(checker, FORMULA, body)?;
    checker.unbind(count);
    checker.allow_exports(allowed);
    where_let(checker.alloc, sides, body)
}

// The right sides of a `let`, whose names have numbers that go on from the first.
#[cycle(expression)]
#[inline(never)]
fn right_sides(
    checker: &mut Checker,
    first: u32,
    order: Order,
    parts: &[LetPart],
) -> Result<Option<List<Binding>>, NoMemory>
    ensures state { OnOk result (checker.new ≡ passed checker.old
        (inside_parts checker.old.scope checker.old.before order (parts_of parts.now))
        (after_parts checker.old.before (parts_of parts.now))) }
    ensures value { IfOk result (λ made. option_map sides_of made ≡ typed_sides checker.old.scope first checker.old.before order (parts_of parts.now)) }
{
    let mut made = Some(List::new(checker.alloc));
    let mut x = first;
    for part in parts {
        let value = expression(checker, Wanted::Exactly(order), &part.value)?;
        made = more_bindings(made, x, order, value)?;
        x = next_number(x)?;
    }
    Ok(made)
}

// An export of a formula to a file, whose name stands at a place of its own.
#[cycle(expression)]
#[inline(never)]
fn export(
    checker: &mut Checker,
    at: At,
    text_at: At,
    file: &Text,
    body: &Expr,
) -> Result<Option<Arg>, NoMemory>
    ensures state { OnOk result (checker.new ≡ formed checker.old (enclosed at (Export text_at file.now) (expression_of body.now))) }
    ensures value { IfOk result (λ value. option_map argument_of value
        ≡ typed checker.old.scope checker.old.before (enclosed at (Export text_at file.now) (expression_of body.now))) }
{
    let begun = checker.begin_export(at)?;
    let body = expression(checker, FORMULA, body)?;
    checker.note_export(text_at, file, begun.exports, begun.reads)?;
    exported(checker.alloc, begun.number, body)
}
