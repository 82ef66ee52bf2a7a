//! What lowering answers at its limits: the size and the depth of sources, on both sides of what is let through; and what a call
//! becomes.
use anyhow::Result;
use ms_edge::Refusal;
use ms_list::{At, List, NoMemory, on_heap, push};
use ms_logic::{Checked, Formula, Mode, Order, Param, Placed, Predicate, Rel, Term1};
use ms_logic_core::{Basic, Core, Lowered};
use ms_lower::{Tables, lower, lower_call};
use std::alloc::Global;

pub fn tell(rt: &HostRuntime) -> Result<()> {
    println!(rt; "Depth")?;
    tell_source(rt, 20, 1)?;
    tell_source(rt, 1, 298)?;
    tell_source(rt, 1, 299)?;
    println!(rt; "Size")?;
    tell_source(rt, 999_999, 0)?;
    tell_source(rt, 1_000_000, 0)?;
    println!(rt; "Both")?;
    tell_source(rt, 4_000, 299)?;
    println!(rt; "Calls")?;
    tell_calls(rt)
}

/// A source of so many formulas, each `true` under so many negations, at the places from 5 on.
fn source(alloc: Global, formulas: u32, negations: u32) -> Result<Checked, NoMemory> {
    let mut placed = List::new(alloc);
    for item in 0..formulas {
        let formula = negated(alloc, negations)?;
        let at = At {
            file: 0,
            place: u64::from(item) + 5,
        };
        let placed_formula = Placed {
            at,
            item,
            title: None,
            formula,
        };
        push(&mut placed, placed_formula)?;
    }
    Ok(Checked {
        mode: Mode::Ws1s,
        globals: List::new(alloc),
        predicates: List::new(alloc),
        imports: List::new(alloc),
        exports: List::new(alloc),
        formulas: placed,
        files: List::new(alloc),
    })
}

/// A source with the predicate `less(var1 x, y) = x < y` alone.
fn with_less(alloc: Global) -> Result<Checked, NoMemory> {
    let mut predicates = List::new(alloc);
    push(&mut predicates, less(alloc)?)?;
    Ok(Checked {
        mode: Mode::Ws1s,
        globals: List::new(alloc),
        predicates,
        imports: List::new(alloc),
        exports: List::new(alloc),
        formulas: List::new(alloc),
        files: List::new(alloc),
    })
}

/// `x < y`, of parameters with the numbers 0 and 1.
fn less(alloc: Global) -> Result<Predicate, NoMemory> {
    let mut params = List::new(alloc);
    push(&mut params, number(0))?;
    push(&mut params, number(1))?;
    let body = Formula::Compare(Rel::Less, Term1::Var(0), Term1::Var(1));
    Ok(Predicate { params, body })
}

/// A parameter that is a number.
fn number(variable: u32) -> Param {
    Param {
        order: Order::One,
        variable,
        domain: None,
    }
}

fn negated(alloc: Global, negations: u32) -> Result<Formula, NoMemory> {
    let mut made = Formula::True;
    for _ in 0..negations {
        made = Formula::Not(on_heap(alloc, made)?);
    }
    Ok(made)
}

fn tell_source(rt: &HostRuntime, formulas: u32, negations: u32) -> Result<()> {
    let checked = source(rt.alloc(), formulas, negations)?;
    tell_answer(rt, &lower(rt.alloc(), &checked))
}

fn tell_answer(rt: &HostRuntime, answer: &Result<Lowered, Refusal>) -> Result<()> {
    match answer {
        Ok(lowered) => tell_sizes(rt, lowered),
        Err(refusal) => tell_refusal(rt, refusal),
    }
}

fn tell_sizes(rt: &HostRuntime, lowered: &Lowered) -> Result<()> {
    println!(rt;
        "size {}, depth {}, roots {}, globals {}",
        lowered.size,
        lowered.depth,
        lowered.roots.len(),
        lowered.orders.len()
    )?;
    Ok(())
}

fn tell_refusal(rt: &HostRuntime, refusal: &Refusal) -> Result<()> {
    match refusal {
        Refusal::Depth { at } => println!(rt; "too deep at {}", at.place)?,
        Refusal::CoreSize => println!(rt; "too large")?,
        _ => println!(rt; "another refusal")?,
    }
    Ok(())
}

/// What calls of the first predicate become, at variables of which the last is free.
fn tell_calls(rt: &HostRuntime) -> Result<()> {
    let checked = with_less(rt.alloc())?;
    let tables = Tables::of(rt.alloc(), &checked)?;
    tell_formula(rt, lower_call(&tables, 0, &[1, 4, 7])?.get())?;
    tell_formula(rt, lower_call(&tables, 0, &[4, 1, 7])?.get())
}

fn tell_formula(rt: &HostRuntime, core: &Core) -> Result<()> {
    match core {
        Core::Basic(Basic::Less(x, y)) => println!(rt; "{} < {}", x, y)?,
        _ => println!(rt; "another formula")?,
    }
    Ok(())
}
