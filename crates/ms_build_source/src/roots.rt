ghost use Rattle.std.specs.Prelude.{◌≡◌, ℕ, ◌+◌, ◌<◌, ◌≤◌, length, slice_get, IfOk, IfErr, Some};
ghost use Rattle.ms_build.specs.Built.{IsWithin};
ghost use Rattle.ms_build.specs.Roots.{IsRootAt};
ghost use Rattle.ms_dag.specs.declared.dag.SharedRoot.{SharedRoot};
ghost use Rattle.ms_build_source.specs.inner.Copies.{AreAskedCopies, AreRootCopies, AreRootsFrom, HaveRoots, IsExportRefused, IsReady, IsRootCopy, IsRootRefused};

use ms_build::Built;
use ms_dfa::{Automaton, FileVersion, Plain};
use ms_edge::Refusal;
use ms_list::{List, Name, StepFault, push};
use ms_logic::ExportUse;
use ms_minim_canonical::canonical;
use std::alloc::Global;

/// The automaton of a root, where nodes and states of a step are together at most `limit`.
fn root_of(built: &Built, root: u32, limit: u64) -> Result<Automaton, Refusal>
    requires ready { IsReady limit built.now }
    requires root { root < length built.now.plan.dag.now.roots }
    ensures root { IfOk result (IsRootAt built.now.plan root) }
    ensures within { IfOk result (λ made. length made.nodes + length made.states ≤ limit) }
    ensures refused { IfErr result (IsRootRefused built.now root limit) }
{
    match built.root(root) {
        Ok(automaton) => Ok(automaton),
        Err(StepFault::Memory) => Err(Refusal::Memory),
        // The roots count behind the nodes.
        Err(StepFault::Nodes { .. }) => Err(Refusal::Nodes {
            step: built.len() + root,
            limit,
        }),
    }
}

/// What contents are made: of a version, with at most so many nodes and states.
#[derive(Clone, Copy)]
struct Making {
    version: FileVersion,
    limit: u64,
}

/// The canonical content of a root, whose variables have these names.
fn root_copy(
    alloc: Global,
    built: &Built,
    root: u32,
    names: &List<Name>,
    making: Making,
) -> Result<Plain, Refusal>
    requires ready { IsReady making.limit built.now }
    requires root { (shared : SharedRoot) × (slice_get built.now.plan.dag.now.roots root ≡ Some shared) × (length names.now ≡ length shared.variables) }
    ensures copy { IfOk result (IsRootCopy making.version built.now.plan root names.now) }
    ensures refused { IfErr result (IsRootRefused built.now root making.limit) }
{
    let automaton = root_of(built, root, making.limit)?;
    // The number of states tells that it is an automaton.
    let _ = automaton.states();
    match canonical(alloc, &automaton, names, making.version, making.limit) {
        Ok(content) => Ok(content),
        Err(StepFault::Memory) => Err(Refusal::Memory),
        // An automaton within the limit has a canonical content within it.
        Err(StepFault::Nodes { .. }) => unreachable!(),
    }
}

/// The canonical contents of the roots of exports, in order.
fn root_copies(
    alloc: Global,
    built: &Built,
    uses: &[ExportUse],
    making: Making,
) -> Result<List<Plain>, Refusal>
    requires ready { IsReady making.limit built.now }
    requires roots { HaveRoots built.now.plan 1 uses.now }
    requires few { length uses.now < 4294967295 }
    ensures copies { IfOk result (AreRootCopies making.version built.now.plan 1 uses.now) }
    ensures refused { IfErr result (IsExportRefused built.now uses.now making.limit) }
{
    let mut copies = List::new(alloc);
    for place in 0..uses.len() {
        let copy = root_copy(alloc, built, place as u32 + 1, &uses[place].names, making)?;
        let Ok(()) = push(&mut copies, copy) else {
            return Err(Refusal::Memory);
        };
    }
    Ok(copies)
}

/// The canonical contents of the roots of exports, in order, in the version in which they are asked for, or none where they are not.
fn asked_copies(
    alloc: Global,
    built: &Built,
    uses: &[ExportUse],
    limit: u64,
    asked: Option<FileVersion>,
) -> Result<List<Plain>, Refusal>
    requires ready { IsReady limit built.now }
    requires roots { HaveRoots built.now.plan 1 uses.now }
    requires few { length uses.now < 4294967295 }
    ensures copies { IfOk result (AreAskedCopies asked built.now.plan uses.now) }
    ensures refused { IfErr result (IsExportRefused built.now uses.now limit) }
{
    match asked {
        Some(version) => root_copies(alloc, built, uses, Making { version, limit }),
        None => Ok(List::new(alloc)),
    }
}

/// The automata of the roots of goals, in order: those behind the roots of so many exports.
fn goal_automata(
    alloc: Global,
    built: &Built,
    exports: usize,
    count: u32,
    limit: u64,
) -> Result<List<Automaton>, Refusal>
    requires ready { IsReady limit built.now }
    requires exports { exports < count }
    requires count { count ≡ length built.now.plan.dag.now.roots }
    ensures roots { IfOk result (AreRootsFrom limit built.now.plan (exports + 1)) }
    ensures refused { IfErr result (λ refusal. (root : ℕ) × IsRootRefused built.now root limit refusal) }
{
    let mut automata = List::new(alloc);
    for root in exports as u32 + 1..count {
        let automaton = root_of(built, root, limit)?;
        let Ok(()) = push(&mut automata, automaton) else {
            return Err(Refusal::Memory);
        };
    }
    Ok(automata)
}

/// What is asked of the roots of a graph: of how many, under which limit on nodes and states, and in which version the contents of
/// exports, if at all.
#[derive(Clone, Copy)]
pub struct Asking {
    pub roots: u32,
    pub limit: u64,
    pub exports: Option<FileVersion>,
}

/// The automaton of the main root, those of the roots of goals, and the contents of the roots of exports.
#[derive(Drop)]
pub struct RootAutomata {
    pub automaton: Automaton,
    pub goals: List<Automaton>,
    pub copies: List<Plain>,
}

/// What is made of the roots of a graph: the main root, those of exports, and those of goals.
pub fn root_automata(
    alloc: Global,
    built: &Built,
    uses: &[ExportUse],
    asking: Asking,
) -> Result<RootAutomata, Refusal>
    requires ready { IsReady asking.limit built.now }
    requires roots { HaveRoots built.now.plan 1 uses.now }
    requires exports { length uses.now < asking.roots }
    requires count { asking.roots ≡ length built.now.plan.dag.now.roots }
    ensures main { IfOk result (λ made. IsRootAt built.now.plan 0 made.automaton) }
    ensures within { IfOk result (λ made. IsWithin asking.limit made.automaton) }
    ensures goals { IfOk result (λ made. AreRootsFrom asking.limit built.now.plan (length uses.now + 1) made.goals) }
    ensures copies { IfOk result (λ made. AreAskedCopies asking.exports built.now.plan uses.now made.copies) }
    ensures refused { IfErr result (λ refusal. (root : ℕ) × IsRootRefused built.now root asking.limit refusal) }
{
    let automaton = root_of(built, 0, asking.limit)?;
    let goals = goal_automata(alloc, built, uses.len(), asking.roots, asking.limit)?;
    let copies = asked_copies(alloc, built, uses, asking.limit, asking.exports)?;
    Ok(RootAutomata {
        automaton,
        goals,
        copies,
    })
}
