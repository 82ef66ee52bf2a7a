//! Whether a source without a header begins with what is read as one.

ghost use Rattle.std.specs.Prelude.{◌≡◌, ◌↔◌, codes, map, IsTrue};
ghost use Rattle.ms_parse_grammar.specs.Reads.{int_symbol};
ghost use Rattle.ms_parse_grammar.specs.Symbol as symbol;
ghost use Rattle.ms_parse_grammar.specs.View.{declaration_of, declared_of, expression_of};
ghost use Rattle.ms_parse_print.specs.inner.Header.{BeginsLikeHeader, IsHeaderFormula, IsHeaderLike, IsNamed};
ghost use Rattle.ms_parse_print.specs.inner.Printable.{ArePrintable, IsClear};

use ms_list::At;
use ms_logic::{Decl, Expr, Form, Int, Item, Mode};

fn same_text(a: &str, b: &str) -> bool
    ensures { IsTrue result ↔ (a.now ≡ b.now) }
{
    a == b
}

fn is_m2l(e: &Expr) -> bool
    ensures { IsTrue result ↔ IsNamed (codes "m2l") (expression_of e.now) }
{
    match &e.form {
        Form::Name(called) => same_text(called.text(), "m2l"),
        _ => false,
    }
}

fn is_str(value: &Int) -> bool
    ensures { IsTrue result ↔ (int_symbol value.now ≡ symbol.name (codes "str")) }
{
    match value {
        Int::Number(_) => false,
        Int::Constant(called) => same_text(called.text(), "str"),
    }
}

// Whether the expression is `m2l - str`.
fn is_header_like(e: &Expr) -> bool
    ensures { IsTrue result ↔ IsHeaderLike (expression_of e.now) }
{
    match &e.form {
        Form::Shift(operand, n) => is_m2l(operand.get()) && n.minus && is_str(&n.value),
        _ => false,
    }
}

fn is_header_formula(declaration: &Decl) -> bool
    ensures { IsTrue result ↔ IsHeaderFormula (declaration_of declaration.now) }
{
    match declaration {
        Decl::Formula(e) => is_header_like(e),
        Decl::Vars(_) => false,
        Decl::Const(_, _, _) => false,
        Decl::Pred(_, _, _, _, _) => false,
        Decl::Include(_, _) => false,
        Decl::Default(_, _, _) => false,
        Decl::Goal(_, _, _) => false,
    }
}

fn begins_like_header(items: &[Item]) -> bool
    ensures { IsTrue result ↔ BeginsLikeHeader (map declared_of items.now) }
{
    match items {
        [first, ..] => is_header_formula(&first.decl),
        [] => false,
    }
}

/// Whether what stands behind the header, or behind no header, is not read as one.
pub fn is_clear(header: Option<(At, Mode)>, items: &[Item]) -> bool
    requires { ArePrintable (map declared_of items.now) }
    ensures { IsTrue result ↔ IsClear header (map declared_of items.now) }
{
    match header {
        None => !begins_like_header(items),
        Some(_) => true,
    }
}
