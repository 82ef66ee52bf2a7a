ghost use Rattle.std.specs.Prelude.{◌≡◌, length, slice_index, IfOk};
ghost use Rattle.ms_arena.specs.Diagram.{IsBefore};
ghost use Rattle.ms_rename.specs.inner.Image.{AreImages, image_of};

use crate::choose::choose;
use ms_arena::Ref;
use ms_diagram::Store;
use ms_list::{List, StepFault, push};
use std::alloc::Global;

/// What a reference has become, by what the nodes have become.
pub(crate) fn image(images: &[Ref], reference: Ref) -> Ref
    requires { IsBefore (length images.now) reference }
    ensures { result ≡ image_of images.now reference }
{
    match reference {
        Ref::Leaf(value) => Ref::Leaf(value),
        Ref::Inner(place) => images[place as usize],
    }
}

/// The place that a map has for a variable, and 0 past its end.
fn place_for(places: &[u32], var: u32) -> u32
    ensures { result ≡ slice_index places.now var }
{
    match places.get(var as usize) {
        Some(place) => *place,
        None => 0,
    }
}

/// The functions of the nodes of a store, one after the other, where variable `places[i]` is read in place of variable `i`.
pub(crate) fn images(
    alloc: Global,
    scratch: &mut Store,
    from: &Store,
    places: &[u32],
) -> Result<List<Ref>, StepFault>
    ensures long { IfOk result (λ made. length made ≡ length from.now.nodes) }
    ensures images { IfOk result (AreImages scratch.new.nodes from.now.nodes places.now) }
{
    // The length tells that the nodes are those of a store.
    let _ = scratch.len();
    let mut made = List::new(alloc);
    for place in 0..from.len() {
        let node = from.node(place as u32);
        let low = image(made.slice(), node.low);
        let high = image(made.slice(), node.high);
        let chosen = match choose(alloc, scratch, place_for(places, node.var), low, high) {
            Ok(chosen) => chosen,
            Err(fault) => return Err(fault),
        };
        match push(&mut made, chosen) {
            Ok(()) => {}
            Err(_) => return Err(StepFault::Memory),
        }
    }
    Ok(made)
}
