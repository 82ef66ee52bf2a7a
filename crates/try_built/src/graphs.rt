ghost use Rattle.try_built.specs.Inclusions.{IsSample, IsSampleGraph};

use crate::inclusions::{Third, inclusions};
use crate::no_calls::NoCalls;
use anyhow::{Result, anyhow};
use ms_build::build;
use ms_dag::{Dag, share};
use ms_dfa::Automaton;
use ms_list::{List, StepFault, let_go};
use ms_logic::Mode;
use ms_logic_core::Lowered;
use std::alloc::Global;

/// The most nodes and states of a step.
const LIMIT: u64 = 1_000;

pub fn tell(rt: &HostRuntime) -> Result<()> {
    tell_graph(rt, "three alike", Third::Alike)?;
    tell_graph(rt, "two alike", Third::Turned)
}

fn tell_graph(rt: &HostRuntime, name: &str, third: Third) -> Result<()> {
    let lowered = inclusions(rt.alloc(), third)?;
    let made = made_of(rt.alloc(), &lowered);
    let_go(lowered);
    let (nodes, states) = made?;
    println!(rt; "{name}: {nodes} nodes, {states} states")?;
    Ok(())
}

/// The nodes of the graph of a source with one root, and the states of the root's automaton.
fn made_of(alloc: Global, lowered: &Lowered) -> Result<(u32, u32)>
    requires { IsSample lowered.now }
{
    let dag = share(alloc, lowered, &NoCalls)?;
    let sizes = sizes_of(alloc, &dag);
    let_go(dag);
    sizes
}

fn sizes_of(alloc: Global, dag: &Dag) -> Result<(u32, u32)>
    requires { IsSampleGraph dag.now }
{
    let states = states_of_root(alloc, dag)?;
    Ok((dag.len(), states))
}

/// The states of the automaton of the first root.
fn states_of_root(alloc: Global, dag: &Dag) -> Result<u32>
    requires { IsSampleGraph dag.now }
{
    let imports = List::new(alloc);
    match build(alloc, dag, &imports, Mode::Ws1s, LIMIT) {
        Ok(built) => {
            let states = states_of(built.root(0));
            let_go(built);
            states
        }
        Err(refusal) => {
            let_go(refusal);
            Err(anyhow!("the graph is not built"))
        }
    }
}

fn states_of(root: Result<Automaton, StepFault>) -> Result<u32> {
    match root {
        Ok(automaton) => {
            let states = automaton.states();
            let_go(automaton);
            Ok(states)
        }
        Err(_) => Err(anyhow!("the root is not built")),
    }
}
