ghost use Rattle.std.specs.Prelude.{◌≡◌, ◌<◌, ◌≤◌, [], length, IfOk};
ghost use Rattle.ms_arena.specs.Diagram.{IsOrdered};
ghost use Rattle.ms_dfa_explore.specs.Explored.{OnRefused};
ghost use Rattle.ms_dfafile_adopt.specs.inner.Images.{HaveBecome};

use crate::states::image;
use ms_arena::{Node, Ref};
use ms_diagram::Store;
use ms_list::{List, StepFault, push};
use std::alloc::Global;

/// The nodes of a file in a store that was empty, one after the other.
pub(crate) fn images(
    alloc: Global,
    store: &mut Store,
    nodes: &[Node],
) -> Result<List<Ref>, StepFault>
    requires ordered { IsOrdered nodes.now }
    requires empty { store.old.nodes ≡ [] }
    ensures long { IfOk result (λ made. length made ≡ length nodes.now) }
    ensures images { IfOk result (HaveBecome store.new.nodes nodes.now) }
    ensures few { IfOk result (λ made. length store.new.nodes ≤ length nodes.now) }
    ensures nodes { OnRefused result (λ refused. (refused ≡ store.old.limit) × (store.old.limit < length nodes.now)) }
{
    // The length tells that the nodes are those of a store.
    let _ = store.len();
    let mut made = List::new(alloc);
    for node in nodes {
        let low = image(made.slice(), node.low);
        let high = image(made.slice(), node.high);
        let next = match store.mk(node.var, low, high) {
            Ok(next) => next,
            Err(fault) => return Err(fault),
        };
        match push(&mut made, next) {
            Ok(()) => {}
            Err(_) => return Err(StepFault::Memory),
        }
    }
    Ok(made)
}
