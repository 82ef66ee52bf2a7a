ghost use Rattle.std.specs.Prelude.{◌≡◌, fold, OnOk};
ghost use Rattle.ms_arena.specs.Diagram.{IsValid};
ghost use Rattle.ms_diagram.specs.Leaves.{noted};
ghost use Rattle.ms_minim_canonical.specs.inner.Renumbering.{KnowsWalks, leaves_from, nodes_from};

use indexmap::IndexSet;
use ms_arena::Ref;
use ms_diagram::Store;
use ms_list::NoMemory;

/// The states and the nodes that a walk has seen, each by first sight.
#[derive(Drop)]
pub(crate) struct Sights {
    pub states: IndexSet<u32>,
    pub places: IndexSet<u32>,
}

/// A number is seen.
fn see(seen: &mut IndexSet<u32>, number: u32) -> Result<(), NoMemory>
    ensures { OnOk result (seen.new.keys ≡ noted seen.old.keys number) }
{
    match seen.insert(number) {
        Ok(_) => Ok(()),
        Err(_) => Err(NoMemory),
    }
}

/// Walks over a diagram: over what is behind the low end of each node, behind its high end, and then over the node itself.
/// Behind a node that was seen before nothing is new.
pub(crate) fn walk(store: &Store, root: Ref, seen: &mut Sights) -> Result<(), NoMemory>
    requires valid { IsValid store.now.nodes root }
    requires known { KnowsWalks store.now.nodes seen.old.states.keys seen.old.places.keys }
    ensures states { OnOk result (seen.new.states.keys ≡ fold noted seen.old.states.keys (leaves_from store.now.nodes root)) }
    ensures places { OnOk result (seen.new.places.keys ≡ fold noted seen.old.places.keys (nodes_from store.now.nodes root)) }
    ensures known { OnOk result (KnowsWalks store.now.nodes seen.new.states.keys seen.new.places.keys) }
{
    match root {
        Ref::Leaf(state) => see(&mut seen.states, state)?,
        Ref::Inner(place) => {
            if seen.places.contains(&place) {
                return Ok(());
            }
            let node = store.node(place);
            walk(store, node.low, seen)?;
            walk(store, node.high, seen)?;
            see(&mut seen.places, place)?;
        }
    }
    Ok(())
}
