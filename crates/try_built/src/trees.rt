//! Copies of trees, and whether two trees are equal.
use anyhow::Result;
use ms_list::{List, on_heap, push};
use ms_logic::{Arg, Binding, Formula, Order, Quant, Rel, Term1, Term2};
use ms_logic_copies::{copy_core, copy_formula, same_formula};
use ms_logic_core::{Basic, Core};
use std::alloc::Global;

pub fn tell(rt: &HostRuntime) -> Result<()> {
    println!(rt; "Copies of trees")?;
    tell_formula(rt)?;
    tell_core(rt)
}

fn tell_formula(rt: &HostRuntime) -> Result<()> {
    let formula = sample(rt.alloc(), 1)?;
    tell_copy(rt, &formula)
}

fn tell_copy(rt: &HostRuntime, formula: &Formula) -> Result<()> {
    let copy = copy_formula(rt.alloc(), formula)?;
    tell_whether_same(rt, formula, &copy)
}

fn tell_whether_same(rt: &HostRuntime, formula: &Formula, copy: &Formula) -> Result<()> {
    println!(rt;
        "a formula and its copy are equal: {}",
        same_formula(formula, copy)
    )?;
    let is_same = is_same_with(rt.alloc(), 2, copy)?;
    println!(rt; "with another number they are equal: {is_same}")?;
    println!(rt;
        "`true` is equal to it: {}",
        same_formula(&Formula::True, copy)
    )?;
    Ok(())
}

/// Whether the sample with this number is the formula.
fn is_same_with(alloc: Global, offset: u64, formula: &Formula) -> Result<bool> {
    let other = sample(alloc, offset)?;
    Ok(same_formula(&other, formula))
}

fn tell_core(rt: &HostRuntime) -> Result<()> {
    let core = restriction(rt.alloc())?;
    tell_copy_of_core(rt, &core)
}

fn tell_copy_of_core(rt: &HostRuntime, core: &Core) -> Result<()> {
    let copy = copy_core(rt.alloc(), core)?;
    print_core(rt, &copy)
}

fn print_core(rt: &HostRuntime, core: &Core) -> Result<()> {
    println!(rt; "a copy of a core formula: {}", core_word(core))?;
    Ok(())
}

/// `ex1 x where x < 3: ~(x + 1 in {x, 4}) & let0 b = a in p(b, x)`, with this number in place of 1.
fn sample(alloc: Global, offset: u64) -> Result<Formula> {
    let mut operands = List::new(alloc);
    push(&mut operands, negation(alloc, offset)?)?;
    push(&mut operands, binding(alloc)?)?;
    let body = on_heap(alloc, Formula::And(operands))?;
    let domain = Formula::Compare(Rel::Less, Term1::Var(1), Term1::Number(3));
    let domain = on_heap(alloc, domain)?;
    Ok(Formula::Bind(Quant::Ex, Order::One, 1, Some(domain), body))
}

/// `~(x + 1 in {x, 4})`
fn negation(alloc: Global, offset: u64) -> Result<Formula> {
    let mut elements = List::new(alloc);
    push(&mut elements, Term1::Var(1))?;
    push(&mut elements, Term1::Number(4))?;
    let next = Term1::Plus(on_heap(alloc, Term1::Var(1))?, offset);
    let member = Formula::Member(true, next, Term2::Literal(elements));
    Ok(Formula::Not(on_heap(alloc, member)?))
}

/// `let0 b = a in p(b, x)`
fn binding(alloc: Global) -> Result<Formula> {
    let mut arguments = List::new(alloc);
    push(&mut arguments, Arg::Zero(Formula::Var(2)))?;
    push(&mut arguments, Arg::One(Term1::Var(1)))?;
    let call = on_heap(alloc, Formula::Call(0, arguments))?;
    let right_side = Binding {
        variable: 2,
        value: Arg::Zero(Formula::Var(0)),
    };
    let mut bindings = List::new(alloc);
    push(&mut bindings, right_side)?;
    Ok(Formula::Let(bindings, call))
}

/// `restrict(x < y)`
fn restriction(alloc: Global) -> Result<Core> {
    let less = on_heap(alloc, Core::Basic(Basic::Less(0, 1)))?;
    Ok(Core::Restrict(less))
}

fn core_word(core: &Core) -> &'static str {
    match core {
        Core::Restrict(body) if is_less(body.get()) => "restrict(x < y)",
        _ => "another",
    }
}

fn is_less(core: &Core) -> bool {
    match core {
        Core::Basic(Basic::Less(left, right)) => *left == 0 && *right == 1,
        _ => false,
    }
}
