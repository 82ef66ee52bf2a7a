ghost use Rattle.std.specs.Prelude.{◌≡◌, ◌++◌, ◌∷◌, [], codes, map, OnOk, string_bytes};
ghost use Rattle.std.specs.List.{flat_map};
ghost use Rattle.ms_logic.specs.declared.mode.Rel.TheVariants.{Equal};
ghost use Rattle.ms_parse_grammar.specs.declared.operator.Binary.TheVariants.{Relation};
ghost use Rattle.ms_parse_grammar.specs.Symbol as symbol;
ghost use Rattle.ms_parse_grammar.specs.Tree as tree;
ghost use Rattle.ms_parse_grammar.specs.View.{declaration_of, declared_of, document_of, expression_of, variables_of};
ghost use Rattle.ms_parse_print.specs.inner.Printed.{first_order, printed, printed_declaration, printed_declared, printed_header, printed_parameter_list, printed_parameters, printed_sum, spelled, text_of};

use crate::expression::{push_between, push_bound, push_bounds, push_expression};
use crate::token::{
    push_kind, push_mark, push_name, push_opening, push_quoted, push_shift, push_unsigned,
    push_word,
};
use ms_list::{At, Name, Text};
use ms_logic::{Bound, Decl, Expr, Item, Mode, Order, PlacedInt, Source};
use ms_text::{Keyword, Mark};
use std::alloc::AllocError;

/// The order of the first variable.
pub fn first_order(bounds: &[Bound]) -> Order
    ensures { result ≡ first_order (variables_of bounds.now) }
{
    match bounds {
        [first, ..] => first.order,
        [] => Order::Zero,
    }
}

fn push_variables(text: &mut String, bounds: &[Bound]) -> Result<(), AllocError>
    ensures { OnOk result (string_bytes text.new ≡ string_bytes text.old ++ printed_declaration spelled (tree.variables (variables_of bounds.now))) }
{
    push_kind(text, first_order(bounds))?;
    push_bounds(text, bounds)
}

// Parameters, each with its kind.
fn push_parameters(text: &mut String, bounds: &[Bound]) -> Result<(), AllocError>
    ensures { OnOk result (string_bytes text.new ≡ string_bytes text.old ++ printed_parameters spelled (variables_of bounds.now)) }
{
    for (i, bound) in bounds.iter().enumerate() {
        push_between(text, Mark::Comma, i)?;
        push_parameter(text, bound)?;
    }
    Ok(())
}

fn push_parameter(text: &mut String, bound: &Bound) -> Result<(), AllocError>
    ensures { OnOk result (string_bytes text.new ≡ string_bytes text.old ++ printed_parameters spelled (variables_of (bound.now ∷ []))) }
{
    push_kind(text, bound.order)?;
    push_bound(text, bound)
}

// Parameters in brackets, or nothing.
fn push_parameter_list(text: &mut String, bounds: &[Bound]) -> Result<(), AllocError>
    ensures { OnOk result (string_bytes text.new ≡ string_bytes text.old ++ printed_parameter_list spelled (variables_of bounds.now)) }
{
    if bounds.is_empty() {
        return Ok(());
    }
    push_mark(text, Mark::OpenParenthesis)?;
    push_parameters(text, bounds)?;
    push_mark(text, Mark::CloseParenthesis)
}

// Numbers and constants with a sign before each but the first.
fn push_sum(text: &mut String, sum: &[PlacedInt]) -> Result<(), AllocError>
    ensures { OnOk result (string_bytes text.new ≡ string_bytes text.old ++ printed_sum spelled sum.now) }
{
    let Some((first, further)) = sum.split_first() else {
        return Ok(());
    };
    push_unsigned(text, first)?;
    for n in further {
        push_shift(text, n)?;
    }
    Ok(())
}

fn push_constant(text: &mut String, called: &Name, sum: &[PlacedInt]) -> Result<(), AllocError>
    ensures { OnOk result (string_bytes text.new ≡ string_bytes text.old ++ (spelled symbol.word_const ++ spelled (symbol.name called.now) ++ spelled (symbol.infix_operator (Relation Equal)) ++ printed_sum spelled sum.now)) }
{
    push_word(text, Keyword::Const)?;
    push_name(text, called)?;
    push_mark(text, Mark::Equal)?;
    push_sum(text, sum)
}

fn predicate_word(is_pred: bool) -> Keyword
    ensures { symbol.word_symbol result ≡ symbol.predicate_word is_pred }
{
    if is_pred {
        Keyword::Pred
    } else {
        Keyword::Macro
    }
}

fn push_predicate_word(text: &mut String, is_pred: bool) -> Result<(), AllocError>
    ensures { OnOk result (string_bytes text.new ≡ string_bytes text.old ++ spelled (symbol.predicate_word is_pred)) }
{
    push_word(text, predicate_word(is_pred))
}

fn push_predicate(
    text: &mut String,
    is_pred: bool,
    called: &Name,
    bounds: &[Bound],
    body: &Expr,
) -> Result<(), AllocError>
    ensures { OnOk result (string_bytes text.new ≡ string_bytes text.old ++ (spelled (symbol.predicate_word is_pred) ++ spelled (symbol.name called.now) ++ printed_parameter_list spelled (variables_of bounds.now) ++ spelled (symbol.infix_operator (Relation Equal)) ++ printed spelled (expression_of body.now))) }
{
    push_predicate_word(text, is_pred)?;
    push_name(text, called)?;
    push_parameter_list(text, bounds)?;
    push_mark(text, Mark::Equal)?;
    push_expression(text, body)
}

fn push_include(text: &mut String, file: &Text) -> Result<(), AllocError>
    ensures { OnOk result (string_bytes text.new ≡ string_bytes text.old ++ (spelled symbol.word_include ++ spelled (symbol.text file.now))) }
{
    push_word(text, Keyword::Include)?;
    push_quoted(text, file)
}

// There is no word for truth values, which have no default restriction.
fn push_default_word(text: &mut String, order: Order) -> Result<(), AllocError>
    ensures { OnOk result (string_bytes text.new ≡ string_bytes text.old ++ spelled (symbol.default_word order)) }
{
    match order {
        Order::Zero => text.push_str(" "),
        Order::One => push_word(text, Keyword::DefaultWhere1),
        Order::Two => push_word(text, Keyword::DefaultWhere2),
    }
}

fn push_default(
    text: &mut String,
    order: Order,
    called: &Name,
    body: &Expr,
) -> Result<(), AllocError>
    ensures { OnOk result (string_bytes text.new ≡ string_bytes text.old ++ printed_declaration spelled (tree.default_restriction order called.now (expression_of body.now))) }
{
    push_default_word(text, order)?;
    push_mark(text, Mark::OpenParenthesis)?;
    push_name(text, called)?;
    push_mark(text, Mark::CloseParenthesis)?;
    push_mark(text, Mark::Equal)?;
    push_expression(text, body)
}

fn push_goal(text: &mut String, title: &Text, body: &Expr) -> Result<(), AllocError>
    ensures { OnOk result (string_bytes text.new ≡ string_bytes text.old ++ (spelled (symbol.name (codes "goal")) ++ spelled (symbol.text title.now) ++ printed spelled (expression_of body.now))) }
{
    text.push_str("goal ")?;
    push_quoted(text, title)?;
    push_expression(text, body)
}

fn push_declaration(text: &mut String, declaration: &Decl) -> Result<(), AllocError>
    ensures { OnOk result (string_bytes text.new ≡ string_bytes text.old ++ printed_declaration spelled (declaration_of declaration.now)) }
{
    match declaration {
        Decl::Vars(bounds) => push_variables(text, bounds.slice()),
        Decl::Const(_, called, sum) => push_constant(text, called, sum.slice()),
        Decl::Pred(is_pred, _, called, bounds, body) => {
            push_predicate(text, *is_pred, called, bounds.slice(), body)
        }
        Decl::Include(_, file) => push_include(text, file),
        Decl::Default(order, called, body) => push_default(text, *order, called, body),
        Decl::Formula(e) => push_expression(text, e),
        Decl::Goal(_, title, body) => push_goal(text, title, body),
    }
}

// A declaration and the semicolon behind it.
fn push_item(text: &mut String, item: &Item) -> Result<(), AllocError>
    ensures { OnOk result (string_bytes text.new ≡ string_bytes text.old ++ printed_declared spelled (declared_of item.now)) }
{
    push_declaration(text, &item.decl)?;
    push_mark(text, Mark::Semicolon)
}

fn push_items(text: &mut String, items: &[Item]) -> Result<(), AllocError>
    ensures { OnOk result (string_bytes text.new ≡ string_bytes text.old ++ flat_map (printed_declared spelled) (map declared_of items.now)) }
{
    for item in items {
        push_item(text, item)?;
    }
    Ok(())
}

fn push_header(text: &mut String, header: Option<(At, Mode)>) -> Result<(), AllocError>
    ensures { OnOk result (string_bytes text.new ≡ string_bytes text.old ++ printed_header spelled header) }
{
    match header {
        None => Ok(()),
        Some((_, Mode::Ws1s)) => text.push_str("ws1s ;\n"),
        Some((_, Mode::M2lStr)) => text.push_str("m2l - str ;\n"),
    }
}

/// The header and the declarations behind the text.
pub fn push_source(text: &mut String, source: &Source) -> Result<(), AllocError>
    ensures { OnOk result (string_bytes text.new ≡ string_bytes text.old ++ text_of (document_of source.now)) }
{
    push_header(text, source.header)?;
    push_items(text, source.items.slice())
}
