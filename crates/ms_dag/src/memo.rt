ghost use Rattle.ms_dag.specs.inner.Memo.{IsTold, child_for};
ghost use Rattle.std.specs.Prelude.{◌≡◌, ◌∷◌, ℕ, List as Sequence, None, IfOk, OnOk};

use crate::call::Call;
use crate::node::Child;
use crate::relations::copied;
use crate::rising::add_all;
use indexmap::IndexMap;
use ms_list::{List, NoMemory};
use std::alloc::Global;

/// The nodes of the calls that have been met, each by its import and then its variables.
#[derive(Drop)]
pub(crate) struct Called {
    children: IndexMap<Vec<u32>, Child>,
}

/// A call as a list: its import and then its variables.
pub(crate) fn key_of(alloc: Global, import: u32, variables: &[u32]) -> Result<Vec<u32>, NoMemory>
    ensures { IfOk result (λ key. key.items ≡ import ∷ variables.now) }
{
    let mut key = copied(alloc, &[import])?;
    add_all(&mut key, variables)?;
    Ok(key)
}

/// An equal child of its own.
pub(crate) fn copied_child(alloc: Global, child: &Child) -> Result<Child, NoMemory>
    ensures { IfOk result (λ made. made ≡ child.now) }
{
    let map = copied(alloc, child.map.slice())?;
    Ok(Child {
        node: child.node,
        map: List::from(map),
    })
}

impl Called {
    /// No calls.
    pub(crate) fn new(alloc: Global) -> Called
        ensures { (call : Sequence ℕ) → child_for result call ≡ None }
    {
        Called {
            children: IndexMap::new(alloc),
        }
    }

    /// The node of a call, if it has been met.
    pub(crate) fn ask(&self, alloc: Global, call: &Vec<u32>) -> Result<Option<Child>, NoMemory>
        ensures { IfOk result (λ found. found ≡ child_for self.now call.now.items) }
    {
        match self.children.get(call) {
            None => Ok(None),
            Some(child) => Ok(Some(copied_child(alloc, child)?)),
        }
    }

    /// From now on the call has this node.
    pub(crate) fn tell(&mut self, call: Vec<u32>, child: Child) -> Result<(), NoMemory>
        ensures { OnOk result (IsTold self.old self.new call.items child) }
    {
        match self.children.insert(call, child) {
            Ok(_) => Ok(()),
            Err(_) => Err(NoMemory),
        }
    }
}

/// The node of a call, if it has been met.
#[inline(never)]
pub(crate) fn known_child(
    alloc: Global,
    called: &Called,
    call: &Call,
) -> Result<Option<Child>, NoMemory>
    ensures { IfOk result (λ found. found ≡ child_for called.now (call.now.import ∷ call.now.variables.now)) }
{
    let key = key_of(alloc, call.import, call.variables)?;
    called.ask(alloc, &key)
}

/// From now on the call has this node.
#[inline(never)]
pub(crate) fn note_child(
    alloc: Global,
    called: &mut Called,
    call: &Call,
    child: &Child,
) -> Result<(), NoMemory>
    ensures { OnOk result (IsTold called.old called.new (call.now.import ∷ call.now.variables.now) child.now) }
{
    let key = key_of(alloc, call.import, call.variables)?;
    called.tell(key, copied_child(alloc, child)?)
}
