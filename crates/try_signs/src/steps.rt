//! Automata step by step, as the data names them.
use crate::orders::{has_one_order, have_equal_orders};
use crate::quantifiers::{quantified, quantified_where};
use anyhow::{Context, Result, bail};
use ms_basic::basic;
use ms_dfa::{Automaton, Track};
use ms_list::{NoMemory, StepFault};
use ms_logic::{Mode, Order, Quant};
use ms_logic_core::Basic;
use ms_minim::minimise;
use ms_product::{Op, combine, negate, restrict_to};
use ms_project::Quantifier;
use ms_rename::{rename, renamed_tracks, widen};
use std::alloc::Global;

/// More nodes and states than any of these automata has.
pub const LIMIT: u64 = 4_000_000;

/// The number that a word is.
fn number(word: &str) -> Result<u64> {
    match word.parse() {
        Ok(number) => Ok(number),
        Err(_) => bail!("{word} is no number"),
    }
}

/// The numbers of a step, behind its name.
fn numbers(alloc: Global, step: &str) -> Result<Vec<u64>> {
    let mut found = Vec::new(alloc);
    for word in step.split(' ').skip(1) {
        found.push(number(word)?)?;
    }
    Ok(found)
}

/// The variable with a number.
fn named(number: u64) -> u32 {
    u32::try_from(number).unwrap_or(u32::MAX)
}

/// A relation of one number or set.
fn of_one(name: &str, x: u32, n: u64) -> Option<Basic> {
    match name {
        "number" => Some(Basic::Number(x, n)),
        "bits" => Some(Basic::Bits(x, n)),
        _ => None,
    }
}

/// A relation of two.
fn of_two(name: &str, x: u32, y: u32) -> Option<Basic> {
    match name {
        "less" => Some(Basic::Less(x, y)),
        "member" => Some(Basic::Member(x, y)),
        "sub" => Some(Basic::Sub(x, y)),
        "min" => Some(Basic::Min(x, y)),
        "max" => Some(Basic::Max(x, y)),
        _ => None,
    }
}

/// A relation of three sets, or of two and a number.
fn of_three(name: &str, x: u32, y: u32, n: u64) -> Option<Basic> {
    let u = named(n);
    match name {
        "union" => Some(Basic::Union(x, y, u)),
        "inter" => Some(Basic::Inter(x, y, u)),
        "diff" => Some(Basic::Diff(x, y, u)),
        "plus" => Some(Basic::Plus(x, y, n)),
        "up" => Some(Basic::Up(x, y, n)),
        "down" => Some(Basic::Down(x, y, n)),
        _ => None,
    }
}

/// The basic relation that a step names, if it names one.
fn relation(alloc: Global, step: &str) -> Result<Option<Basic>> {
    let name = step.split(' ').next().unwrap_or("");
    let found = match numbers(alloc, step)?.as_slice() {
        [a] if name == "truth" => Some(Basic::Truth(named(*a))),
        [x, n] => of_one(name, named(*x), *n).or(of_two(name, named(*x), named(*n))),
        [x, y, n] => of_three(name, named(*x), named(*y), *n),
        _ => None,
    };
    Ok(found)
}

/// What an operation gives, or its fault in words.
pub fn told(made: Result<Automaton, StepFault>) -> Result<Automaton> {
    match made {
        Ok(made) => Ok(made),
        Err(StepFault::Memory) => bail!("no memory"),
        Err(StepFault::Nodes { limit }) => bail!("more than {limit} nodes and states"),
    }
}

/// The automaton of a basic relation.
pub fn made_of(alloc: Global, form: &Basic, mode: Mode) -> Result<Automaton> {
    if !has_one_order(form) {
        bail!("a variable stands for a number and for a set");
    }
    told(basic(alloc, form, mode, LIMIT))
}

/// The connective of two automata.
pub fn both(alloc: Global, left: &Automaton, right: &Automaton, op: Op) -> Result<Automaton> {
    if left.mode() != right.mode() {
        bail!("one is over strings and one is not");
    }
    if !have_equal_orders(left.tracks(), right.tracks()) {
        bail!("a variable has two orders");
    }
    told(combine(alloc, left, right, op, LIMIT))
}

/// The automaton with the variables of a map.
pub fn over(alloc: Global, made: &Automaton, map: &[u32]) -> Result<Automaton> {
    if map.len() != made.tracks().len() {
        bail!("there is not one variable for each track");
    }
    let Ok(tracks) = renamed_tracks(alloc, made.tracks(), map) else {
        bail!("no memory");
    };
    if !have_equal_orders(tracks.slice(), tracks.slice()) {
        bail!("a variable has two orders");
    }
    told(rename(alloc, made, map, LIMIT))
}

/// The variables that a step names, behind its name.
fn variables(alloc: Global, step: &str) -> Result<Vec<u32>> {
    let mut found = Vec::new(alloc);
    for number in numbers(alloc, step)? {
        found.push(named(number))?;
    }
    Ok(found)
}

/// The track of a variable and the number of its order.
fn track(numbers: &[u64]) -> Result<Track> {
    let (variable, order) = match numbers {
        [variable, 0] => (*variable, Order::Zero),
        [variable, 1] => (*variable, Order::One),
        [variable, 2] => (*variable, Order::Two),
        _ => bail!("a track is a variable and its order"),
    };
    Ok(Track {
        variable: named(variable),
        order,
    })
}

/// The automaton over one track more.
fn wider(alloc: Global, made: &Automaton, track: Track) -> Result<Automaton> {
    if !have_equal_orders(made.tracks(), &[track]) {
        bail!("a variable has two orders");
    }
    told(widen(alloc, made, track, LIMIT))
}

/// The quantifier that a step names, and whether it has a domain.
fn quantifier(alloc: Global, step: &str) -> Result<Option<(Quantifier, bool)>> {
    let (quant, within) = match step.split(' ').next() {
        Some("ex") => (Quant::Ex, false),
        Some("all") => (Quant::All, false),
        Some("ex-where") => (Quant::Ex, true),
        Some("all-where") => (Quant::All, true),
        _ => return Ok(None),
    };
    let numbers = numbers(alloc, step)?;
    let track = track(numbers.as_slice())?;
    Ok(Some((Quantifier { quant, track }, within)))
}

fn op_of(step: &str) -> Option<Op> {
    match step {
        "and" => Some(Op::And),
        "or" => Some(Op::Or),
        "implies" => Some(Op::Implies),
        "iff" => Some(Op::Iff),
        _ => None,
    }
}

fn changed(made: Result<Automaton, NoMemory>) -> Result<Automaton> {
    match made {
        Ok(made) => Ok(made),
        Err(NoMemory) => bail!("no memory"),
    }
}

/// What a step makes of one automaton, if it takes one.
fn of_last(alloc: Global, last: &Automaton, step: &str) -> Result<Option<Automaton>> {
    if step == "not" {
        return changed(negate(alloc, last)).map(Some);
    }
    if step == "restrict" {
        return changed(restrict_to(alloc, last)).map(Some);
    }
    if step == "minimise" {
        return told(minimise(alloc, last, LIMIT)).map(Some);
    }
    Ok(None)
}

/// What a step makes of two automata.
fn of_two_last(
    alloc: Global,
    left: &Automaton,
    right: &Automaton,
    step: &str,
) -> Result<Automaton> {
    if let Some((quantifier, true)) = quantifier(alloc, step)? {
        return quantified_where(alloc, left, right, quantifier);
    }
    let Some(op) = op_of(step) else {
        bail!("unknown step {step}");
    };
    both(alloc, left, right, op)
}

/// What a step with variables makes of one automaton, if it takes one.
fn of_last_with(alloc: Global, last: &Automaton, step: &str) -> Result<Option<Automaton>> {
    if step.starts_with("rename ") {
        let map = variables(alloc, step)?;
        return over(alloc, last, map.as_slice()).map(Some);
    }
    if let Some((quantifier, false)) = quantifier(alloc, step)? {
        return quantified(alloc, last, quantifier).map(Some);
    }
    if step.starts_with("widen ") {
        let numbers = numbers(alloc, step)?;
        return wider(alloc, last, track(numbers.as_slice())?).map(Some);
    }
    of_last(alloc, last, step)
}

/// What a step that is no basic relation makes of the last automata, and of how many.
fn made_by(alloc: Global, stack: &[Automaton], step: &str) -> Result<(Automaton, usize)> {
    let Some(right) = stack.last() else {
        bail!("an operand is lacking");
    };
    if let Some(made) = of_last_with(alloc, right, step)? {
        return Ok((made, 1));
    }
    if stack.len() < 2 {
        bail!("an operand is lacking");
    }
    let made = of_two_last(alloc, &stack[stack.len() - 2], right, step)?;
    Ok((made, 2))
}

/// One step: one automaton more, or what a connective makes of the last ones.
pub fn take_step(alloc: Global, stack: &mut Vec<Automaton>, step: &str, mode: Mode) -> Result<()> {
    if let Some(form) = relation(alloc, step)? {
        stack.push(made_of(alloc, &form, mode).context("a basic relation")?)?;
        return Ok(());
    }
    let (made, used) = made_by(alloc, stack.as_slice(), step)?;
    for _ in 0..used {
        let _ = stack.pop();
    }
    stack.push(made)?;
    Ok(())
}
