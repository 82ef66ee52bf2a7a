//! Contents of automaton files.
use anyhow::Result;
use ms_arena::{Node, Ref};
use ms_dfa::{FileSign, FileState, FileVar, FileVersion, Part, Plain, is_in};
use ms_list::{List, Name, let_go};
use ms_logic::{Mode, Order};
use std::alloc::Global;
use std::io;

pub fn tell(rt: &HostRuntime) -> Result<()> {
    println!(rt; "Contents of automaton files")?;
    tell_copy(rt)?;
    for order in [Order::Zero, Order::One, Order::Two] {
        tell_parts(rt, order)?;
    }
    Ok(())
}

/// What a copy of the sample has.
fn tell_copy(rt: &HostRuntime) -> Result<()> {
    let plain = sample(rt.alloc())?;
    let printed = print_copy(rt, &plain);
    let_go(plain);
    printed
}

/// The parts of a word in which a variable of an order stands.
fn tell_parts(rt: &HostRuntime, order: Order) -> io::Result<()> {
    let word = order_word(order);
    println!(rt;
        "{word} stands before the letters: {}",
        is_in(Part::Truth, order)
    )?;
    println!(rt;
        "{word} has a bit in each letter: {}",
        is_in(Part::Letters, order)
    )
}

fn order_word(order: Order) -> &'static str {
    match order {
        Order::Zero => "a truth value",
        Order::One => "a number",
        Order::Two => "a set",
    }
}

/// What is referred to, and its number.
pub fn ref_words(reference: Ref) -> (&'static str, u32) {
    match reference {
        Ref::Leaf(value) => ("leaf", value),
        Ref::Inner(place) => ("node", place),
    }
}

/// Prints a reference behind what refers.
pub fn print_ref(rt: &HostRuntime, what: &str, reference: Ref) -> io::Result<()> {
    let (kind, number) = ref_words(reference);
    println!(rt; "{what} {kind} {number}")
}

fn sample(alloc: Global) -> Result<Plain> {
    let variables = variables(alloc)?;
    let states = states(alloc)?;
    let nodes = nodes(alloc)?;
    Ok(Plain {
        version: FileVersion::Two,
        mode: Mode::M2lStr,
        variables,
        start: Ref::Leaf(0),
        states,
        nodes,
    })
}

fn variables(alloc: Global) -> Result<List<FileVar>> {
    let variable = FileVar {
        order: Order::Two,
        name: Name::new(alloc, "P")?,
    };
    Ok(List::from(vec![in alloc; variable]?))
}

fn states(alloc: Global) -> Result<List<FileState>> {
    let state = FileState {
        sign: FileSign::Minus,
        next: Ref::Inner(0),
    };
    Ok(List::from(vec![in alloc; state]?))
}

fn nodes(alloc: Global) -> Result<List<Node>> {
    let node = Node {
        var: 0,
        low: Ref::Leaf(0),
        high: Ref::Leaf(1),
    };
    Ok(List::from(vec![in alloc; node]?))
}

fn print_copy(rt: &HostRuntime, plain: &Plain) -> Result<()> {
    let copy = plain.copy(rt.alloc())?;
    let printed = print_plain(rt, &copy);
    let_go(copy);
    printed?;
    Ok(())
}

fn print_plain(rt: &HostRuntime, plain: &Plain) -> io::Result<()> {
    println!(rt; "of version 2: {}", plain.version == FileVersion::Two)?;
    println!(rt; "over strings: {}", plain.mode == Mode::M2lStr)?;
    print_ref(rt, "it starts at", plain.start)?;
    for variable in plain.variables.slice() {
        print_variable(rt, variable)?;
    }
    for state in plain.states.slice() {
        print_state(rt, *state)?;
    }
    for node in plain.nodes.slice() {
        print_node(rt, *node)?;
    }
    Ok(())
}

fn print_variable(rt: &HostRuntime, variable: &FileVar) -> io::Result<()> {
    println!(rt;
        "{} is {}",
        variable.name.text(),
        order_word(variable.order)
    )
}

fn print_state(rt: &HostRuntime, state: FileState) -> io::Result<()> {
    let sign = match state.sign {
        FileSign::Plus => "+",
        FileSign::Minus => "-",
        FileSign::Zero => "0",
        FileSign::Outside => "x",
    };
    let (kind, number) = ref_words(state.next);
    println!(rt; "a state {sign} with {kind} {number}")
}

fn print_node(rt: &HostRuntime, node: Node) -> io::Result<()> {
    println!(rt; "a node of variable {}", node.var)?;
    print_ref(rt, "low", node.low)?;
    print_ref(rt, "high", node.high)
}
