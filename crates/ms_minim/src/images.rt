ghost use Rattle.std.specs.Prelude.{◌≡◌, ◌<◌, ◌≤◌, ◌+◌, length, slice_index, IfOk};
ghost use Rattle.ms_arena.specs.declared.node.Ref.TheVariants.{Inner};
ghost use Rattle.ms_arena.specs.Diagram.{IsBefore};
ghost use Rattle.ms_arena.specs.Target.{Extends};
ghost use Rattle.ms_diagram.specs.Store.{IsStore};
ghost use Rattle.ms_minim.specs.inner.Image.{AreImages, HaveImages, IsImage, image_of};
ghost use Rattle.ms_minim.specs.inner.Origin.{AreClosed, IsOn};

use crate::origins::is_seen;
use ms_arena::Ref;
use ms_diagram::{RefList, Store};
use ms_list::NoMemory;
use std::alloc::Global;

/// How many nodes a store holds at most.
pub(crate) const ROOM: u64 = 4000000000;

/// What each node of an automaton has become in a store of their own, where leaves are read as classes.
pub(crate) struct Images {
    pub store: Store,
    pub list: RefList,
}

// Written out, so that a function that lets one go at each of its exits is proved at the cost of a call.
impl Drop for Images {
    fn drop(self) {
        let Images { store: _, list: _ } = self;
    }
}

impl Images {
    /// Their store alone.
    pub(crate) fn into_store(self) -> Store
        ensures { result ≡ self.store }
    {
        let Images { store, list: _ } = self;
        store
    }
}

/// The class of a state, and 0 where there is no such state.
pub(crate) fn class_of(classes: &[u32], state: u32) -> u32
    ensures { result ≡ slice_index classes.now state }
{
    match classes.get(state as usize) {
        Some(class) => *class,
        None => 0,
    }
}

/// What a reference becomes, by what the nodes have become.
pub(crate) fn image(images: &RefList, classes: &[u32], reference: Ref) -> Ref
    requires { IsBefore (length images.now) reference }
    ensures { result ≡ image_of images.now classes.now reference }
{
    match reference {
        Ref::Leaf(value) => Ref::Leaf(class_of(classes, value)),
        Ref::Inner(place) => images.get(place),
    }
}

/// The nodes of an automaton, from where each is reached, and the classes of its states.
#[derive(Clone, Copy)]
pub(crate) struct Reached<'a> {
    pub store: &'a Store,
    pub origins: &'a [u32],
    pub classes: &'a [u32],
}

/// What the node at a place becomes, by what the nodes before it have become, and a leaf where it is reached from nowhere.
fn image_at(
    store: &mut Store,
    reached: &Reached,
    images: &RefList,
    place: u32,
) -> Result<Ref, NoMemory>
    requires store { IsStore store.old.nodes store.old.limit }
    requires place { place < length reached.now.store.now.nodes }
    requires long { length images.now ≡ place }
    requires origins { length reached.now.origins.now ≡ length reached.now.store.now.nodes }
    requires closed { AreClosed reached.now.store.now.nodes reached.now.origins.now }
    requires images { HaveImages store.old.nodes reached.now.store.now.nodes reached.now.classes.now reached.now.origins.now images.now }
    ensures extends { Extends store.old.nodes store.new.nodes }
    ensures one { length store.new.nodes ≤ length store.old.nodes + 1 }
    ensures store { IsStore store.new.nodes store.new.limit }
    ensures image { IfOk result (λ made. IsOn reached.now.origins.now (Inner place) → IsImage store.new.nodes reached.now.store.now.nodes reached.now.classes.now (Inner place) made) }
{
    if !is_seen(reached.origins[place as usize]) {
        return Ok(Ref::Leaf(0));
    }
    let node = reached.store.node(place);
    let low = image(images, reached.classes, node.low);
    let high = image(images, reached.classes, node.high);
    let Ok(made) = store.mk(node.var, low, high) else {
        return Err(NoMemory);
    };
    Ok(made)
}

/// The nodes of an automaton that are reached from somewhere, one after the other, with the classes of states at their leaves.
pub(crate) fn images_of(alloc: Global, reached: &Reached) -> Result<Images, NoMemory>
    requires origins { length reached.now.origins.now ≡ length reached.now.store.now.nodes }
    requires closed { AreClosed reached.now.store.now.nodes reached.now.origins.now }
    ensures images { IfOk result (AreImages reached.now.store.now.nodes reached.now.classes.now reached.now.origins.now) }
    ensures few { IfOk result (λ made. length made.store.nodes ≤ length reached.now.store.now.nodes) }
{
    let mut store = Store::new(alloc, ROOM);
    let mut list = RefList::new(alloc);
    store.reserve(reached.store.len())?;
    // The length tells that the nodes are those of a store.
    let _ = store.len();
    for place in 0..reached.store.len() {
        let made = image_at(&mut store, reached, &list, place as u32)?;
        list.push(made)?;
    }
    Ok(Images { store, list })
}
