ghost use Rattle.std.specs.Prelude.{◌≡◌, ◌<◌, ◌≤◌, ◌+◌, ◌++◌, [], ◌∷◌, length, IfOk, IfErr, OnOk};
ghost use Rattle.ms_build.specs.Roots.{AreRootsRead, IsRootAt};
ghost use Rattle.ms_dag.specs.Dag.{AreNodes};
ghost use Rattle.ms_build.specs.Built.{AreBuiltFor, AreImportsOf, IsBuiltOver, IsLimit, IsWithin, entries_of, refusal_of, roots_of};
ghost use Rattle.ms_build.specs.Short.{IsStepRefused, IsUnbuilt, NodeLacks, RootLacks};
ghost use Rattle.ms_dfa_explore.specs.Explored.{OnRefused};
ghost use Rattle.ms_build.specs.inner.Uses.{AreLastUses};

use crate::nodes::node;
use crate::plan::Plan;
use crate::roots::over_variables;
use crate::uses::{last_uses, release};
use ms_dag::Dag;
use ms_dfa::Automaton;
use ms_edge::Refusal;
use ms_list::{List, NoMemory, StepFault};
use ms_logic::Mode;
use std::alloc::Global;

/// The automata of a graph, by the numbers of its nodes: those of the roots, each over the node's own variables and with
/// fewest states. In the place of another stands its own or a small one that means nothing.
#[derive(Drop)]
pub struct Built<'a> {
    pub(crate) plan: Plan<'a>,
    pub(crate) automata: List<Automaton>,
}

/// The refusal of a step, by the number of its node.
fn refusal(step: u32, limit: u64, fault: StepFault) -> Refusal
    ensures { result ≡ refusal_of step limit fault }
{
    match fault {
        StepFault::Memory => Refusal::Memory,
        StepFault::Nodes { .. } => Refusal::Nodes { step, limit },
    }
}

/// One automaton more in a list.
fn push_automaton(automata: &mut Vec<Automaton>, made: Automaton) -> Result<(), StepFault>
    ensures pushed { IfOk result (λ done. automata.new.items ≡ automata.old.items ++ made ∷ []) }
    ensures nodes { OnRefused result (λ refused. ⊥) }
{
    match automata.push(made) {
        Ok(()) => Ok(()),
        Err(_) => Err(StepFault::Memory),
    }
}

/// The automaton of one node more.
fn build_next(plan: &Plan, automata: &mut Vec<Automaton>) -> Result<(), StepFault>
    requires limit { IsLimit plan.now.limit }
    requires nodes { AreNodes (entries_of plan.now) }
    requires few { length (entries_of plan.now) ≤ 4294967295 }
    requires imports { AreImportsOf plan.now.imports.now plan.now.mode (entries_of plan.now) }
    requires built { AreBuiltFor plan.now automata.old.items }
    requires next { length automata.old.items < length (entries_of plan.now) }
    ensures built { OnOk result (AreBuiltFor plan.now automata.new.items × (length automata.new.items ≡ length automata.old.items + 1)) }
    ensures nodes { OnRefused result (λ refused. NodeLacks plan.now (length automata.old.items)) }
{
    let made = node(plan, automata.as_slice())?;
    push_automaton(automata, made)
}

/// The automaton of one node more, without those of its children that no later node uses.
fn build_step(plan: &Plan, last: &[u32], automata: &mut Vec<Automaton>) -> Result<(), StepFault>
    requires limit { IsLimit plan.now.limit }
    requires nodes { AreNodes (entries_of plan.now) }
    requires few { length (entries_of plan.now) ≤ 4294967295 }
    requires imports { AreImportsOf plan.now.imports.now plan.now.mode (entries_of plan.now) }
    requires last { AreLastUses (entries_of plan.now) (roots_of plan.now) last.now }
    requires built { AreBuiltFor plan.now automata.old.items }
    requires next { length automata.old.items < length (entries_of plan.now) }
    ensures built { OnOk result (AreBuiltFor plan.now automata.new.items) }
    ensures count { OnOk result (length automata.new.items ≡ length automata.old.items + 1) }
    ensures nodes { OnRefused result (λ refused. NodeLacks plan.now (length automata.old.items)) }
{
    build_next(plan, automata)?;
    match release(plan, last, automata) {
        Ok(()) => Ok(()),
        Err(NoMemory) => Err(StepFault::Memory),
    }
}

/// The automata of all nodes, lowest first.
fn build_each(plan: &Plan) -> Result<List<Automaton>, Refusal>
    requires limit { IsLimit plan.now.limit }
    requires nodes { AreNodes (entries_of plan.now) }
    requires few { length (entries_of plan.now) ≤ 4294967295 }
    requires imports { AreImportsOf plan.now.imports.now plan.now.mode (entries_of plan.now) }
    ensures built { IfOk result (AreBuiltFor plan.now) }
    ensures all { IfOk result (λ made. length made ≡ length (entries_of plan.now)) }
    ensures refused { IfErr result (IsStepRefused plan.now) }
{
    let Ok(last) = last_uses(plan) else {
        return Err(Refusal::Memory);
    };
    let mut automata = Vec::new(plan.alloc);
    for step in 0..plan.dag.len() {
        if let Err(fault) = build_step(plan, last.as_slice(), &mut automata) {
            return Err(refusal(step, plan.limit, fault));
        }
    }
    Ok(List::from(automata))
}

/// The automata of the roots of a graph, over the automata of its imports: nodes are built lowest first, and those that
/// are no roots are let go behind their last use. Nodes and states of a step are together at most `limit`; a step that
/// needs more is refused by its number.
pub fn build<'a>(
    alloc: Global,
    dag: &'a Dag,
    imports: &'a List<Automaton>,
    mode: Mode,
    limit: u64,
) -> Result<Built<'a>, Refusal>
    requires some { 1 ≤ limit }
    requires small { limit ≤ 4000000000 }
    requires nodes { AreNodes dag.now.entries }
    requires few { length dag.now.entries ≤ 4294967295 }
    requires imports { AreImportsOf imports.now mode dag.now.entries }
    ensures built { IfOk result (IsBuiltOver imports.entry.now mode dag.entry.now) }
    ensures limit { IfOk result (λ built. built.plan.limit ≡ limit) }
    ensures refused { IfErr result (IsUnbuilt imports.entry.now mode dag.entry.now limit) }
{
    let plan = Plan {
        alloc,
        dag,
        imports,
        mode,
        limit,
    };
    let automata = build_each(&plan)?;
    Ok(Built { plan, automata })
}

impl<'a> Built<'a> {
    /// How many automata there are: one for each node.
    pub fn len(&self) -> u32
        requires { length self.now.automata ≤ 4294967295 }
        ensures { result ≡ length self.now.automata }
    {
        self.automata.len() as u32
    }

    /// The automaton of this root, over all variables of the root and with fewest states.
    pub fn root(&self, r: u32) -> Result<Automaton, StepFault>
        requires limit { IsLimit self.now.plan.limit }
        requires built { AreBuiltFor self.now.plan self.now.automata }
        requires all { length self.now.automata ≡ length (entries_of self.now.plan) }
        requires root { r < length self.now.plan.dag.now.roots }
        requires read { AreRootsRead self.now.plan.dag.now }
        ensures root { IfOk result (IsRootAt self.now.plan r) }
        ensures within { IfOk result (IsWithin self.now.plan.limit) }
        ensures nodes { OnRefused result (λ refused. RootLacks self.now.plan r) }
    {
        let child = self.plan.dag.root(r);
        let variables = self.plan.dag.variables(r);
        over_variables(&self.plan, self.automata.slice(), child, variables)
    }
}
