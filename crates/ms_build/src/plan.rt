use ms_dag::Dag;
use ms_dfa::Automaton;
use ms_list::List;
use ms_logic::Mode;
use std::alloc::Global;

/// What is built: the automata of a graph, over those that it imports, in a mode, each within a limit on nodes and states.
#[derive(Clone, Copy)]
pub(crate) struct Plan<'a> {
    pub alloc: Global,
    pub dag: &'a Dag,
    pub imports: &'a List<Automaton>,
    pub mode: Mode,
    pub limit: u64,
}

/// A connective of many formulas, of which the causes of a lack of nodes speak.
#[derive(Clone, Copy)]
pub enum Many {
    All,
    Any,
}
