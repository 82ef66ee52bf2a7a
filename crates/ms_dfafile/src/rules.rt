ghost use Rattle.std.specs.Prelude.{◌≡◌, ◌<◌, ◌≤◌, ◌↔◌, ℕ, List, length, slice_get, IfOk, IsTrue, Some};
ghost use Rattle.ms_arena.specs.Diagram.{IsValid, TestsAbove};
ghost use Rattle.ms_dfa.specs.Files.{content_of_file};
ghost use Rattle.ms_dfa.specs.declared.plain.FileState.{FileState};
ghost use Rattle.ms_dfafile.specs.inner.Rules.{ArePlaced, FindsAllTests, FindsNodeTests, FindsTests, IsNext, IsStart, KnowsTests};
ghost use Rattle.ms_logic_words.specs.Content.{IsContent};

use crate::tested::Tests;
use ms_arena::{Node, Ref};
use ms_dfa::Plain;
use ms_list::{List, NoMemory, push};
use ms_logic::Order;
use std::alloc::Global;

/// What a reference tests, where it names a state or one of the nodes whose tests are known.
fn tests_of(plain: &Plain, known: &[Tests], reference: Ref) -> Option<Tests>
    requires { KnowsTests (content_of_file plain.now) known.now }
    ensures { FindsTests (content_of_file plain.now) (length known.now) reference result }
{
    match reference {
        Ref::Leaf(state) => {
            if state as usize >= plain.states.len() {
                return None;
            }
            Some(Tests::NONE)
        }
        Ref::Inner(place) => known.get(place as usize).copied(),
    }
}

/// Whether a reference tests a variable above this one first.
fn is_above(plain: &Plain, var: u32, reference: Ref) -> bool
    requires { IsValid plain.now.nodes reference }
    ensures { IsTrue result ↔ TestsAbove plain.now.nodes var reference }
{
    match reference {
        Ref::Leaf(_) => true,
        Ref::Inner(place) => var < plain.nodes.get(place as usize).var,
    }
}

/// What a node behind those whose tests are known tests, where it may stand there.
fn node_tests(plain: &Plain, known: &[Tests], node: Node) -> Option<Tests>
    requires tests { KnowsTests (content_of_file plain.now) known.now }
    requires next { slice_get plain.now.nodes (length known.now) ≡ Some node }
    ensures { FindsNodeTests (content_of_file plain.now) (length known.now) node result }
{
    let var = node.var as usize;
    if var >= plain.variables.len() {
        return None;
    }
    let own = Tests::of_order(plain.variables.get(var).order);
    let low = tests_of(plain, known, node.low)?;
    let high = tests_of(plain, known, node.high)?;
    if !is_above(plain, node.var, node.low) || !is_above(plain, node.var, node.high) {
        return None;
    }
    Some(own.with(low).with(high))
}

/// What each node tests, where each may stand where it does.
fn all_tests(alloc: Global, plain: &Plain) -> Result<Option<List<Tests>>, NoMemory>
    ensures { IfOk result (FindsAllTests (content_of_file plain.now)) }
{
    let mut known = List::new(alloc);
    for node in plain.nodes.slice() {
        match node_tests(plain, known.slice(), *node) {
            Some(tests) => push(&mut known, tests)?,
            None => return Ok(None),
        }
    }
    Ok(Some(known))
}

/// Whether the start is as a content has it.
fn is_start(plain: &Plain, known: &[Tests]) -> bool
    requires all { length known.now ≡ length plain.now.nodes }
    requires tests { KnowsTests (content_of_file plain.now) known.now }
    ensures { IsTrue result ↔ IsStart (content_of_file plain.now) plain.now.start }
{
    match tests_of(plain, known, plain.start) {
        Some(tests) => tests.truth_values,
        None => false,
    }
}

/// Whether the reference of a state is as a content has it.
fn is_next(plain: &Plain, known: &[Tests], next: Ref) -> bool
    requires all { length known.now ≡ length plain.now.nodes }
    requires tests { KnowsTests (content_of_file plain.now) known.now }
    ensures { IsTrue result ↔ IsNext (content_of_file plain.now) next }
{
    match tests_of(plain, known, next) {
        Some(tests) => tests.letters,
        None => false,
    }
}

/// Whether the references of all states are.
fn are_next(plain: &Plain, known: &[Tests]) -> bool
    requires all { length known.now ≡ length plain.now.nodes }
    requires tests { KnowsTests (content_of_file plain.now) known.now }
    ensures { IsTrue result ↔ ((i : ℕ) (state : FileState) → slice_get plain.now.states i ≡ Some state → IsNext (content_of_file plain.now) state.next) }
{
    for state in plain.states.slice() {
        if !is_next(plain, known, state.next) {
            return false;
        }
    }
    true
}

/// Whether there is a state, and the start and the states have references as a content has them.
fn are_references(plain: &Plain, known: &[Tests]) -> bool
    requires all { length known.now ≡ length plain.now.nodes }
    requires placed { ArePlaced (content_of_file plain.now) (length plain.now.nodes) }
    requires tests { KnowsTests (content_of_file plain.now) known.now }
    ensures { IsTrue result ↔ IsContent (content_of_file plain.now) }
{
    if plain.states.is_empty() {
        return false;
    }
    if !is_start(plain, known) {
        return false;
    }
    are_next(plain, known)
}

/// Whether references, nodes and variables are as in each content.
pub(crate) fn is_content(alloc: Global, plain: &Plain) -> Result<bool, NoMemory>
    ensures { IfOk result (λ is. IsTrue is ↔ IsContent (content_of_file plain.now)) }
{
    match all_tests(alloc, plain)? {
        Some(known) => Ok(are_references(plain, known.slice())),
        None => Ok(false),
    }
}
