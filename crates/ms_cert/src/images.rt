ghost use Rattle.std.specs.Prelude.{◌≡◌, ◌<◌, length, slice_index, IfOk};
ghost use Rattle.ms_arena.specs.declared.node.Ref.TheVariants.{Inner};
ghost use Rattle.ms_arena.specs.Diagram.{IsBefore};
ghost use Rattle.ms_arena.specs.Target.{Extends};
ghost use Rattle.ms_dfa.specs.Files.{content_of_file};
ghost use Rattle.ms_diagram.specs.Store.{IsStore};
ghost use Rattle.ms_logic_words.specs.Content.{IsContent};
ghost use Rattle.ms_cert.specs.inner.Difference.{TestBelow};
ghost use Rattle.ms_cert.specs.inner.Images.{AreImages, HaveImages, IsImage, image_of};

use ms_arena::Ref;
use ms_dfa::Plain;
use ms_diagram::Store;
use ms_list::{List, NoMemory, push};
use std::alloc::Global;

/// How many nodes a store holds at most.
const ROOM: u64 = 4000000000;

/// What each node of a file has become in a store of their own, where leaves are read as classes.
pub(crate) struct Images {
    pub store: Store,
    pub list: List<Ref>,
}

// Written out, so that a function that lets one go at each of its exits is proved at the cost of a call.
impl Drop for Images {
    fn drop(self) {
        let Images { store: _, list: _ } = self;
    }
}

/// The class of a state, and 0 where there is no such state.
fn class_of(classes: &[u32], state: u32) -> u32
    ensures { result ≡ slice_index classes.now state }
{
    match classes.get(state as usize) {
        Some(class) => *class,
        None => 0,
    }
}

/// What a reference becomes, by what the nodes have become.
pub(crate) fn image(images: &[Ref], classes: &[u32], reference: Ref) -> Ref
    requires { IsBefore (length images.now) reference }
    ensures { result ≡ image_of images.now classes.now reference }
{
    match reference {
        Ref::Leaf(value) => Ref::Leaf(class_of(classes, value)),
        Ref::Inner(place) => images[place as usize],
    }
}

/// What the next node becomes, by what the nodes before it have become.
fn next_image(
    store: &mut Store,
    plain: &Plain,
    classes: &[u32],
    images: &[Ref],
) -> Result<Ref, NoMemory>
    requires store { IsStore store.old.nodes store.old.limit }
    requires content { IsContent (content_of_file plain.now) }
    requires place { length images.now < length plain.now.nodes }
    requires below { TestBelow store.old.nodes (length plain.now.variables) }
    requires images { HaveImages store.old.nodes plain.now.nodes classes.now images.now }
    ensures extends { Extends store.old.nodes store.new.nodes }
    ensures store { IsStore store.new.nodes store.new.limit }
    ensures below { TestBelow store.new.nodes (length plain.now.variables) }
    ensures image { IfOk result (IsImage store.new.nodes plain.now.nodes classes.now (Inner (length images.now))) }
{
    let node = *plain.nodes.get(images.len());
    let low = image(images, classes, node.low);
    let high = image(images, classes, node.high);
    let Ok(made) = store.mk(node.var, low, high) else {
        return Err(NoMemory);
    };
    Ok(made)
}

/// The nodes of a file, one after the other, with the classes of states at their leaves. Nodes have one image exactly where
/// all bits lead from them to one class.
pub(crate) fn images_of(alloc: Global, plain: &Plain, classes: &[u32]) -> Result<Images, NoMemory>
    requires { IsContent (content_of_file plain.now) }
    ensures { IfOk result (AreImages plain.now classes.now) }
{
    let mut store = Store::new(alloc, ROOM);
    let mut list = List::new(alloc);
    store.reserve(plain.nodes.len() as u64)?;
    // The length tells that the nodes are those of a store.
    let _ = store.len();
    for _ in 0..plain.nodes.len() {
        let made = next_image(&mut store, plain, classes, list.slice())?;
        push(&mut list, made)?;
    }
    Ok(Images { store, list })
}
