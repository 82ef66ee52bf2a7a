//! Whether some text reads as a source.

ghost use Rattle.std.specs.Prelude.{◌≡◌, ◌↔◌, Bool, false, true, map, IsTrue};
ghost use Rattle.ms_list.specs.declared.at.At.{At};
ghost use Rattle.ms_parse_grammar.specs.Declarations.{Fits};
ghost use Rattle.ms_parse_grammar.specs.Grammar.{IsExpression};
ghost use Rattle.ms_parse_grammar.specs.Symbol as symbol;
ghost use Rattle.ms_parse_grammar.specs.Tree as tree;
ghost use Rattle.ms_parse_grammar.specs.View.{declaration_of, declared_of, expression_of, variables_of};
ghost use Rattle.ms_parse_print.specs.inner.Passes.{VariablesPass};
ghost use Rattle.ms_parse_print.specs.inner.Printable.{ArePrintable, HasSummand, IsPrintable};
ghost use Rattle.ms_parse_print.specs.inner.Printed.{AreSpellable, IsSpellable, printed, printed_sum, single};

use crate::clear::is_clear;
use crate::declaration::first_order;
use crate::fit::{are_alike, passes, variables_pass};
use crate::said::{can_name, can_quote, can_say_all, can_say_unsigned};
use ms_list::{Name, Text};
use ms_logic::{Bound, Decl, Expr, Item, Order, PlacedInt, Source};

// The greatest depth of an expression.
const GREATEST_DEPTH: u32 = 300;

#[tactic(auto, using(crate::proofs::Declared::expression_printable, crate::proofs::Declared::printable_expression))]
fn expression_fits(e: &Expr) -> bool
    ensures { IsTrue result ↔ (AreSpellable (printed single (expression_of e.now)) × IsExpression (expression_of e.now)) }
{
    passes(e, GREATEST_DEPTH, true)
}

fn variables_fit(bounds: &[Bound]) -> bool
    ensures { IsTrue result ↔ IsPrintable (tree.variables (variables_of bounds.now)) }
{
    are_alike(bounds, first_order(bounds)) && variables_pass(bounds, GREATEST_DEPTH, true)
}

fn sum_fits(sum: &[PlacedInt]) -> bool
    ensures { IsTrue result ↔ (AreSpellable (printed_sum single sum.now) × HasSummand sum.now) }
{
    match sum {
        [first, further @ ..] => can_say_unsigned(first) && can_say_all(further),
        [] => false,
    }
}

fn constant_fits(called: &Name, sum: &[PlacedInt]) -> bool
    ensures { (at : At) → IsTrue result ↔ IsPrintable (tree.constant at called.now sum.now) }
{
    can_name(called) && sum_fits(sum)
}

fn head_fits(called: &Name, bounds: &[Bound]) -> bool
    ensures { IsTrue result ↔ (IsSpellable (symbol.name called.now) × VariablesPass 300 true (variables_of bounds.now)) }
{
    can_name(called) && variables_pass(bounds, GREATEST_DEPTH, true)
}

fn predicate_fits(called: &Name, bounds: &[Bound], body: &Expr) -> bool
    ensures { (is_pred : Bool) (at : At) → IsTrue result ↔ IsPrintable (tree.predicate is_pred at called.now (variables_of bounds.now) (expression_of body.now)) }
{
    head_fits(called, bounds) && passes(body, GREATEST_DEPTH, true)
}

fn include_fits(file: &Text) -> bool
    ensures { (at : At) → IsTrue result ↔ IsPrintable (tree.included at file.now) }
{
    can_quote(file)
}

// Whether there is a word for the default restriction of variables of this order.
fn has_default_word(order: Order) -> bool
    ensures { IsTrue result ↔ IsSpellable (symbol.default_word order) }
{
    match order {
        Order::Zero => false,
        Order::One => true,
        Order::Two => true,
    }
}

fn default_fits(order: Order, called: &Name, body: &Expr) -> bool
    ensures { IsTrue result ↔ IsPrintable (tree.default_restriction order called.now (expression_of body.now)) }
{
    has_default_word(order) && can_name(called) && expression_fits(body)
}

#[tactic(auto, using(crate::proofs::Sources::goal_said))]
fn goal_fits(title: &Text, body: &Expr) -> bool
    ensures { (at : At) → IsTrue result ↔ IsPrintable (tree.goal at title.now (expression_of body.now)) }
{
    can_quote(title) && expression_fits(body)
}

fn declaration_fits(declaration: &Decl) -> bool
    ensures { IsTrue result ↔ IsPrintable (declaration_of declaration.now) }
{
    match declaration {
        Decl::Vars(bounds) => variables_fit(bounds.slice()),
        Decl::Const(_, called, sum) => constant_fits(called, sum.slice()),
        Decl::Pred(_, _, called, bounds, body) => predicate_fits(called, bounds.slice(), body),
        Decl::Include(_, file) => include_fits(file),
        Decl::Default(order, called, body) => default_fits(*order, called, body),
        Decl::Formula(e) => expression_fits(e),
        Decl::Goal(_, title, body) => goal_fits(title, body),
    }
}

fn items_fit(items: &[Item]) -> bool
    ensures { IsTrue result ↔ ArePrintable (map declared_of items.now) }
{
    for item in items {
        if !declaration_fits(&item.decl) {
            return false;
        }
    }
    true
}

/// Whether some text has tokens that read as the source, places aside.
#[tactic(auto, using(crate::proofs::Fitting::fits_by_parts, crate::proofs::Fitting::parts_of_fit))]
pub fn fits(source: &Source) -> bool
    ensures yes { IsTrue result → Fits source.now }
    ensures no { result ≡ false → ¬ (Fits source.now) }
{
    items_fit(source.items.slice()) && is_clear(source.header, source.items.slice())
}
