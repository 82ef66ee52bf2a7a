//! An automaton over no variables, of the strings that have a position, and its first words.
ghost use Rattle.std.specs.Prelude.{◌≡◌, IfOk};
ghost use Rattle.ms_dfa.specs.Automaton.{states_of};
ghost use Rattle.try_diagrams.specs.Lengths.{lengths_content};

use crate::plains::{print_ref, ref_words};
use anyhow::Result;
use ms_arena::Ref;
use ms_best::first;
use ms_dfa::{Automaton, State};
use ms_diagram::Store;
use ms_list::{List, NoMemory, Word, let_go};
use ms_logic::Mode;
use ms_logic_words::Sign;
use std::alloc::Global;
use std::io;

pub fn tell(rt: &HostRuntime) -> Result<()> {
    println!(rt; "An automaton")?;
    let automaton = lengths(rt.alloc())?;
    let told = tell_lengths(rt, &automaton);
    let_go(automaton);
    told
}

fn tell_lengths(rt: &HostRuntime, automaton: &Automaton) -> Result<()>
    requires { automaton.now ≡ lengths_content }
{
    print_automaton(rt, automaton)?;
    print_first(rt, automaton, Sign::No)?;
    print_first(rt, automaton, Sign::Yes)?;
    print_first(rt, automaton, Sign::Undefined)
}

/// The two states: at the empty string, and at any other.
fn states(alloc: Global) -> Result<List<State>, NoMemory>
    ensures { IfOk result (λ states. states_of states ≡ lengths_content.states) }
{
    let empty = State {
        sign: Sign::No,
        next: Ref::Leaf(1),
    };
    let longer = State {
        sign: Sign::Yes,
        next: Ref::Leaf(1),
    };
    match vec![in alloc; empty, longer] {
        Ok(states) => Ok(List::from(states)),
        Err(_) => Err(NoMemory),
    }
}

fn lengths(alloc: Global) -> Result<Automaton, NoMemory>
    ensures { IfOk result (λ made. made ≡ lengths_content) }
{
    let store = Store::new(alloc, 1);
    let tracks = List::new(alloc);
    let Ok(states) = states(alloc) else {
        return Err(NoMemory);
    };
    let automaton = Automaton::make(store, Mode::M2lStr, tracks, Ref::Leaf(0), states);
    Ok(automaton)
}

fn print_automaton(rt: &HostRuntime, automaton: &Automaton) -> io::Result<()>
    requires { automaton.now ≡ lengths_content }
{
    println!(rt; "over strings: {}", automaton.mode() == Mode::M2lStr)?;
    println!(rt; "{} tracks", automaton.tracks().len())?;
    println!(rt; "{} nodes", automaton.store().len())?;
    print_ref(rt, "it starts at", automaton.start_ref())?;
    println!(rt; "which is state {}", automaton.start(&[]))?;
    print_states(rt, automaton)
}

fn print_states(rt: &HostRuntime, automaton: &Automaton) -> io::Result<()>
    requires { automaton.now ≡ lengths_content }
{
    for state in 0..automaton.states() {
        let sign = automaton.sign(state);
        let next = automaton.next_ref(state);
        print_state(rt, state, sign, next, automaton.step(state, &[]))?;
    }
    Ok(())
}

fn print_state(rt: &HostRuntime, state: u32, sign: Sign, next: Ref, after: u32) -> io::Result<()> {
    let sign = sign_word(sign);
    let (kind, number) = ref_words(next);
    println!(rt; "state {state}: {sign}, then {kind} {number}, which is state {after}")
}

fn sign_word(sign: Sign) -> &'static str {
    match sign {
        Sign::Yes => "yes",
        Sign::No => "no",
        Sign::Undefined => "undefined",
        Sign::Outside => "outside",
    }
}

/// The first word with a sign.
fn print_first(rt: &HostRuntime, automaton: &Automaton, sign: Sign) -> Result<()> {
    let found = first(rt.alloc(), automaton, sign)?;
    let printed = print_found(rt, sign_word(sign), &found);
    let_go(found);
    printed?;
    Ok(())
}

fn print_found(rt: &HostRuntime, sign: &str, found: &Option<Word>) -> io::Result<()> {
    match found {
        Some(word) => println!(rt;
            "the first word with {sign} has {} truth values and {} letters",
            word.truth.len(),
            word.letters.len()
        ),
        None => println!(rt; "no word has {sign}"),
    }
}
