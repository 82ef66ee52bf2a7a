//! Sources that are printed and read again, and trees that cannot be printed.
use crate::parses::tree_of;
use crate::rows::{Question, run_rows};
use crate::told::{shown, told_of};
use anyhow::{Result, bail};
use ms_list::{At, Boxed, Bytes, List, Name, NoMemory, let_go, on_heap, push};
use ms_logic::{Bound, Decl, Expr, Form, Item, Mode, Order, Quant, Rel, Source};
use ms_parse_print::{fits, print};
use std::alloc::Global;
use std::io;

pub fn tell(rt: &HostRuntime) -> Result<()> {
    println!(rt; "Sources that are printed")?;
    run_rows(rt, "printed.toml", Question::Print)?;
    let alloc = rt.alloc();
    print_tree(rt, Some((AT, Mode::M2lStr)), negation(alloc)?)?;
    print_tree(rt, None, quantified(alloc)?)?;
    // Without brackets it would read as `(~p) & $ = q`.
    let operand = boxed(alloc, conjunction(alloc)?)?;
    print_tree(rt, None, Form::Not(operand))?;
    // A word is no name.
    print_tree(rt, None, named(alloc, "union")?)
}

/// What is printed of a source, which must be printed of that once more, or its refusal. The end of the last line is
/// left out.
pub fn answer(alloc: Global, bytes: Bytes) -> Result<String> {
    let once = printed(alloc, bytes)?;
    if once.starts_with(|c: char| c.is_ascii_digit()) {
        return Ok(once);
    }
    same_again(alloc, once.as_str())
}

/// The text that was printed, if it is printed once more where it is read. The end of the last line is left out.
fn same_again(alloc: Global, once: &str) -> Result<String> {
    let bytes = Bytes::from(Vec::from_slice(alloc, once.as_bytes())?);
    let twice = printed(alloc, bytes)?;
    if once != twice.as_str() {
        bail!("it is printed otherwise when it is read again");
    }
    let line = once.strip_suffix("\n").unwrap_or("");
    Ok(String::from_str(alloc, line)?)
}

/// What is printed of a source, or its refusal.
fn printed(alloc: Global, bytes: Bytes) -> Result<String> {
    let parsed = tree_of(alloc, bytes)?;
    told_of(alloc, parsed, |source| printed_source(alloc, source))
}

fn printed_source(alloc: Global, source: &Source) -> Result<String> {
    let text = print_behind(alloc, b"", source)?;
    Ok(String::from_str(alloc, shown(text.slice()))?)
}

/// The source printed behind these bytes, or an empty text where it cannot be printed.
fn print_behind(alloc: Global, before: &[u8], source: &Source) -> Result<Bytes> {
    if !fits(source) {
        return Ok(List::new(alloc));
    }
    let mut text = Bytes::from(Vec::from_slice(alloc, before)?);
    print(alloc, source, &mut text)?;
    Ok(text)
}

const AT: At = At { file: 0, place: 0 };

fn boxed(alloc: Global, form: Form) -> Result<Boxed<Expr>> {
    Ok(on_heap(alloc, Expr { at: AT, form })?)
}

fn named(alloc: Global, text: &str) -> Result<Form> {
    Ok(Form::Name(Name::new(alloc, text)?))
}

/// Prints a source with one formula, behind a comment.
fn print_tree(rt: &HostRuntime, header: Option<(At, Mode)>, form: Form) -> Result<()> {
    let source = source_of(rt.alloc(), header, form)?;
    let printed = print_source(rt, &source);
    let_go(source);
    printed
}

fn source_of(alloc: Global, header: Option<(At, Mode)>, form: Form) -> Result<Source, NoMemory> {
    let mut items = List::new(alloc);
    let decl = Decl::Formula(Expr { at: AT, form });
    push(&mut items, Item { at: AT, decl })?;
    Ok(Source { header, items })
}

fn print_source(rt: &HostRuntime, source: &Source) -> Result<()> {
    let text = print_behind(rt.alloc(), b"# printed\n", source)?;
    print_text(rt, text.slice())?;
    Ok(())
}

fn print_text(rt: &HostRuntime, text: &[u8]) -> io::Result<()> {
    if text.is_empty() {
        println!(rt; "no text reads as it")
    } else {
        rt.print(shown(text))
    }
}

/// `p & $ = q`
fn conjunction(alloc: Global) -> Result<Form> {
    let mut operands = List::new(alloc);
    push_operand(&mut operands, named(alloc, "p")?)?;
    push_operand(&mut operands, equation(alloc)?)?;
    Ok(Form::And(operands))
}

fn push_operand(operands: &mut List<Expr>, form: Form) -> Result<(), NoMemory> {
    push(operands, Expr { at: AT, form })
}

/// `$ = q`
fn equation(alloc: Global) -> Result<Form> {
    let left = boxed(alloc, Form::Whole)?;
    let right = boxed(alloc, named(alloc, "q")?)?;
    Ok(Form::Relation(Rel::Equal, left, right))
}

/// `~(p & $ = q)`
fn negation(alloc: Global) -> Result<Form> {
    let inner = boxed(alloc, conjunction(alloc)?)?;
    Ok(Form::Not(boxed(alloc, Form::Paren(inner))?))
}

/// `ex1 x: x < 3`
fn quantified(alloc: Global) -> Result<Form> {
    let body = boxed(alloc, below_three(alloc)?)?;
    let bounds = first_order(alloc, "x")?;
    Ok(Form::Bind(Quant::Ex, Order::One, bounds, body))
}

/// `x < 3`
fn below_three(alloc: Global) -> Result<Form> {
    let left = boxed(alloc, named(alloc, "x")?)?;
    let right = boxed(alloc, Form::Number(3))?;
    Ok(Form::Relation(Rel::Less, left, right))
}

/// One bound variable of order 1.
fn first_order(alloc: Global, name: &str) -> Result<List<Bound>, NoMemory> {
    let bound = Bound {
        at: AT,
        order: Order::One,
        name: Name::new(alloc, name)?,
        domain: None,
    };
    let mut bounds = List::new(alloc);
    push(&mut bounds, bound)?;
    Ok(bounds)
}
