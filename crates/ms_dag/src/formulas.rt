ghost use Rattle.ms_dag.specs.Dag.{AreNodes};
ghost use Rattle.ms_dag.specs.Imports.{ImportsBelow};
ghost use Rattle.ms_dag.specs.inner.Keys.{IsKeyed};
ghost use Rattle.ms_dag.specs.inner.Memo.{AreCalled};
ghost use Rattle.ms_dag.specs.inner.Scope.{IsInScope};
ghost use Rattle.ms_dag.specs.inner.Shared.{IsSharedNow};
ghost use Rattle.ms_dag.specs.inner.Tasks.{CallsBelow};
ghost use Rattle.ms_logic_core.specs.Calls.{filled};
ghost use Rattle.ms_logic_core.specs.CoreForm.{core_form_of, imported};
ghost use Rattle.std.specs.Prelude.{◌≡◌, ◌≤◌, ℕ, List as Sequence, IfOk, OnOk};

use crate::above::share_above;
use crate::bodies::Bodies;
use crate::call::{Call, call_of};
use crate::memo::{Called, known_child, note_child};
use crate::node::Child;
use crate::nodes::Nodes;
use crate::relations::share_import;
use crate::tasks::{Task, plan, plan_each, put, take_last};
use ms_list::{Boxed, NoMemory};
use ms_logic::Order;
use ms_logic_core::Core;
use std::alloc::Global;

/// A limit that the number of each import is below.
pub(crate) const ABOVE_IMPORTS: u64 = 1 << 32;

/// The orders of the globals of a source, and what its imports stand for.
#[derive(Drop)]
pub(crate) struct Source<'a, B> {
    pub(crate) orders: &'a [Order],
    pub(crate) bodies: &'a B,
}

// What a call stands for.
#[inline(never)]
fn body_of<B: Bodies>(
    alloc: Global,
    source: &Source<B>,
    call: &Call,
) -> Result<Boxed<Core>, NoMemory>
    requires ready { B.IsReady source.now.bodies.now }
    requires call { B.own_imports source.now.bodies.now ≤ call.now.import }
    ensures stands { IfOk result (λ core. filled (B.calls source.now.bodies.now) (core_form_of core) ≡ B.calls source.now.bodies.now call.now.import call.now.variables.now) }
    ensures below { IfOk result (λ core. ImportsBelow call.now.import (core_form_of core)) }
{
    source.bodies.body(alloc, call.import, call.variables)
}

/// The node of a formula with what its imports stand for in their places, and the variables of the source for its own. What is in it waits
/// on the heap, so the stack grows with calls in the bodies of calls alone. Each import in it has a number below the limit, and those in
/// what it stands for have numbers below its own, so calls come to an end.
#[cycle(share)]
pub(crate) fn share_core<B: Bodies>(
    nodes: &mut Nodes,
    called: &mut Called,
    source: &Source<B>,
    core: &Core,
    limit: u64,
) -> Result<Child, NoMemory>
    requires ready { B.IsReady source.now.bodies.now }
    requires keyed { IsKeyed nodes.old }
    requires nodes { AreNodes nodes.old.entries }
    requires called { AreCalled (B.calls source.now.bodies.now) source.now.orders.now nodes.old.entries called.old }
    requires scoped { (scope : Sequence ℕ) × IsInScope source.now.orders.now scope (filled (B.calls source.now.bodies.now) (core_form_of core.now)) }
    requires below { CallsBelow limit (core_form_of core.now) }
    ensures keyed { OnOk result (IsKeyed nodes.new) }
    ensures called { OnOk result (AreCalled (B.calls source.now.bodies.now) source.now.orders.now nodes.new.entries called.new) }
    ensures shared { IfOk result (λ child. IsSharedNow source.now.orders.now nodes.old.entries nodes.new.entries (filled (B.calls source.now.bodies.now) (core_form_of core.now)) child) }
{
    let mut tasks = Vec::new(nodes.alloc);
    let mut parts = Vec::new(nodes.alloc);
    put(&mut tasks, Task::Share(core))?;
    while let Some(task) = tasks.pop() {
        match task {
            Task::Share(core) => match call_of(core) {
                Some(call) => {
                    let child = share_call(nodes, called, source, &call, limit)?;
                    put(&mut parts, child)?;
                }
                None => plan(&mut tasks, core)?,
            },
            Task::Each(operands) => plan_each(&mut tasks, operands)?,
            Task::Above(core) => share_above(nodes, source, core, &mut parts)?,
        }
    }
    Ok(take_last(&mut parts))
}

// An import of the source, or what another import stands for. Its number is below the limit.
#[cycle(share)]
#[inline(never)]
fn share_call<B: Bodies>(
    nodes: &mut Nodes,
    called: &mut Called,
    source: &Source<B>,
    call: &Call,
    limit: u64,
) -> Result<Child, NoMemory>
    requires ready { B.IsReady source.now.bodies.now }
    requires keyed { IsKeyed nodes.old }
    requires nodes { AreNodes nodes.old.entries }
    requires called { AreCalled (B.calls source.now.bodies.now) source.now.orders.now nodes.old.entries called.old }
    requires scoped { (scope : Sequence ℕ) × IsInScope source.now.orders.now scope (B.calls source.now.bodies.now call.now.import call.now.variables.now) }
    requires below { CallsBelow limit (imported call.now.import call.now.variables.now) }
    ensures keyed { OnOk result (IsKeyed nodes.new) }
    ensures called { OnOk result (AreCalled (B.calls source.now.bodies.now) source.now.orders.now nodes.new.entries called.new) }
    ensures shared { IfOk result (λ child. IsSharedNow source.now.orders.now nodes.old.entries nodes.new.entries (B.calls source.now.bodies.now call.now.import call.now.variables.now) child) }
{
    if source.bodies.is_import(call.import) {
        return share_import(nodes, source.orders, call.import, call.variables);
    }
    let alloc = nodes.alloc;
    if let Some(child) = known_child(alloc, called, call)? {
        return Ok(child);
    }
    let body = body_of(alloc, source, call)?;
    let child = share_core(nodes, called, source, body.get(), u64::from(call.import))?;
    note_child(alloc, called, call, &child)?;
    Ok(child)
}
