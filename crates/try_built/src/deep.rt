//! Trees that are deeper than any that is read, made by hand and let go. With a call for each level they would run out of
//! stack.
use anyhow::Result;
use ms_list::{At, NoMemory, on_heap};
use ms_logic::{Expr, Form, Formula, Order, Quant};
use ms_logic_core::Core;
use std::alloc::Global;

const BRACKETS: u32 = 1_000_000;

const VARIABLES: u32 = 100_000;

pub fn tell(rt: &HostRuntime) -> Result<()> {
    println!(rt; "Deep trees")?;
    drop(brackets(rt.alloc(), BRACKETS)?);
    println!(rt; "{BRACKETS} brackets are let go")?;
    drop(quantifiers(rt.alloc(), VARIABLES)?);
    println!(rt; "{VARIABLES} quantifiers are let go")?;
    drop(core_quantifiers(rt.alloc(), VARIABLES)?);
    println!(rt; "{VARIABLES} quantifiers of a core formula are let go")?;
    Ok(())
}

/// `true` in so many brackets.
fn brackets(alloc: Global, count: u32) -> Result<Expr, NoMemory> {
    let at = At { file: 0, place: 0 };
    let mut made = Expr {
        at,
        form: Form::True,
    };
    for _ in 0..count {
        let form = Form::Paren(on_heap(alloc, made)?);
        made = Expr { at, form };
    }
    Ok(made)
}

/// `true` under a quantifier for each of so many variables.
fn quantifiers(alloc: Global, count: u32) -> Result<Formula, NoMemory> {
    let mut made = Formula::True;
    for variable in 0..count {
        let body = on_heap(alloc, made)?;
        made = Formula::Bind(Quant::Ex, Order::One, variable, None, body);
    }
    Ok(made)
}

/// The same as a core formula.
fn core_quantifiers(alloc: Global, count: u32) -> Result<Core, NoMemory> {
    let mut made = Core::True;
    for variable in 0..count {
        let body = on_heap(alloc, made)?;
        made = Core::Bind(Quant::Ex, Order::One, variable, None, body);
    }
    Ok(made)
}
