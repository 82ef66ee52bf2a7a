//! Trees of sources: their outermost forms.
use crate::rows::{Question, run_rows};
use crate::tokens::{FILE, tokens_of};
use crate::told::{mode_word, told_of};
use anyhow::Result;
use ms_edge::Refusal;
use ms_list::{Bytes, List, let_go};
use ms_logic::{Decl, Expr, Form, Item, Source};
use ms_parse::parse;
use std::alloc::{AllocError, Global};

pub fn tell(rt: &HostRuntime) -> Result<()> {
    println!(rt; "Trees of sources")?;
    run_rows(rt, "shapes.toml", Question::Parse)?;
    header(rt)
}

/// The outermost forms of the last formula of a source, or its refusal.
pub fn answer(alloc: Global, bytes: Bytes) -> Result<String> {
    let parsed = tree_of(alloc, bytes)?;
    told_of(alloc, parsed, |source| last_shape(alloc, source))
}

/// The tree of a source, or its refusal.
pub fn tree_of(alloc: Global, bytes: Bytes) -> Result<Result<Source, Refusal>> {
    match tokens_of(alloc, bytes)? {
        Ok(all) => {
            let parsed = parse(alloc, &all, FILE);
            let_go(all);
            Ok(parsed)
        }
        Err(refusal) => Ok(Err(refusal)),
    }
}

fn last_shape(alloc: Global, source: &Source) -> Result<String> {
    Ok(shape_of_last(alloc, source.items.slice())?)
}

fn shape_of_last(alloc: Global, items: &[Item]) -> Result<String, AllocError> {
    match items.last() {
        Some(item) => match &item.decl {
            Decl::Formula(expr) => shape(alloc, expr),
            Decl::Goal(_, _, expr) => shape(alloc, expr),
            _ => String::from_str(alloc, "no formula"),
        },
        None => String::from_str(alloc, "nothing"),
    }
}

/// The outermost form and those in it.
fn shape(alloc: Global, expr: &Expr) -> Result<String, AllocError> {
    match &expr.form {
        Form::Implies(left, right) => both(alloc, expr, left.get(), right.get()),
        Form::Iff(left, right) => both(alloc, expr, left.get(), right.get()),
        Form::Union(left, right) => both(alloc, expr, left.get(), right.get()),
        Form::And(list) => several(alloc, expr, list),
        Form::Or(list) => several(alloc, expr, list),
        Form::Not(inner) => one(alloc, expr, inner.get()),
        Form::Bind(_, _, _, body) => one(alloc, expr, body.get()),
        Form::Let(_, _, body) => one(alloc, expr, body.get()),
        Form::Shift(inner, _) => one(alloc, expr, inner.get()),
        _ => String::from_str(alloc, root(expr)),
    }
}

/// The name of the outermost form.
fn root(expr: &Expr) -> &'static str {
    match &expr.form {
        Form::Name(_) => "name",
        Form::Not(_) => "not",
        Form::And(_) => "and",
        Form::Or(_) => "or",
        Form::Implies(..) => "implies",
        Form::Iff(..) => "iff",
        Form::Bind(..) => "bind",
        Form::Let(..) => "let",
        Form::Shift(..) => "shift",
        Form::Relation(..) => "relation",
        Form::Union(..) => "union",
        Form::Inter(..) => "inter",
        Form::Minus(..) => "minus",
        _ => "another",
    }
}

fn both(alloc: Global, expr: &Expr, left: &Expr, right: &Expr) -> Result<String, AllocError> {
    format!(in alloc; "{}: {}, {}", root(expr), root(left), root(right))
}

fn one(alloc: Global, expr: &Expr, inner: &Expr) -> Result<String, AllocError> {
    format!(in alloc; "{}: {}", root(expr), root(inner))
}

fn several(alloc: Global, expr: &Expr, list: &List<Expr>) -> Result<String, AllocError> {
    let mut text = format!(in alloc; "{}: ", root(expr))?;
    push_roots(&mut text, list.slice())?;
    Ok(text)
}

fn push_roots(text: &mut String, operands: &[Expr]) -> Result<(), AllocError> {
    for (i, operand) in operands.iter().enumerate() {
        if i > 0 {
            text.push_str(", ")?;
        }
        text.push_str(root(operand))?;
    }
    Ok(())
}

/// Prints the header of a source that has one, and how many declarations follow it.
fn header(rt: &HostRuntime) -> Result<()> {
    let alloc = rt.alloc();
    let bytes = List::from(Vec::from_slice(alloc, b" m2l-str; var1 x; x = 0;")?);
    let parsed = tree_of(alloc, bytes)?;
    let told = told_of(alloc, parsed, |source| told_header(alloc, source))?;
    println!(rt; "{told}")?;
    Ok(())
}

fn told_header(alloc: Global, source: &Source) -> Result<String> {
    let mut text = String::new(alloc);
    match &source.header {
        Some((at, mode)) => {
            let mode = mode_word(*mode);
            write!(text, "a header of {mode} at {}:{}\n", at.file, at.place)?;
        }
        None => text.push_str("no header\n")?,
    }
    write!(text, "{} declarations", source.items.len())?;
    Ok(text)
}
