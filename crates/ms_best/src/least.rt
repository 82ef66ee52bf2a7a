ghost use Rattle.std.specs.Prelude.{◌≡◌, ◌<◌, length, IfOk};
ghost use Rattle.ms_arena.specs.Diagram.{IsValid};
ghost use Rattle.ms_arena.specs.Halves.{half_of};
ghost use Rattle.ms_logic_words.specs.Content.{IsFollowed};
ghost use Rattle.ms_dfa.specs.Part.{has_value};
ghost use Rattle.ms_best.specs.inner.Least.{least_values, least_letters};

use crate::distances::Distances;
use ms_arena::Ref;
use ms_dfa::{Automaton, Part, Sign, is_in};
use ms_diagram::Store;
use ms_list::{List, NoMemory};
use std::alloc::Global;

/// What is left of a diagram once the bit of a variable is fixed; the diagram tests no earlier variable.
fn half(store: &Store, reference: Ref, var: usize, bit: bool) -> Ref
    requires { IsValid store.now.nodes reference }
    ensures { result ≡ half_of store.now.nodes var bit reference }
{
    let Ref::Inner(place) = reference else {
        return reference;
    };
    let node = store.node(place);
    if node.var as usize != var {
        reference
    } else if bit {
        node.high
    } else {
        node.low
    }
}

/// The least values of one part of a word that lead nearest to the sign from a diagram.
pub fn least_values(
    alloc: Global,
    automaton: &Automaton,
    distances: &Distances,
    part: Part,
    root: Ref,
) -> Result<List<bool>, NoMemory>
    requires states { distances.now.states ≡ length automaton.now.states }
    requires nodes { distances.now.nodes ≡ length automaton.now.nodes }
    requires root { IsFollowed automaton.now (has_value part) root }
    ensures { IfOk result (λ values. values ≡ least_values automaton.now distances.now.values.items (has_value part) 0 automaton.now.variables root) }
{
    let tracks = automaton.tracks();
    let mut values = List::new(alloc);
    let mut reference = root;
    for (place, track) in tracks.iter().enumerate() {
        if is_in(part, track.order) {
            let low = half(automaton.store(), reference, place, false);
            let bit = distances.of(low) != distances.of(reference);
            reference = half(automaton.store(), reference, place, bit);
            match values.push(bit) {
                Ok(()) => {}
                Err(_) => return Err(NoMemory),
            }
        }
    }
    Ok(values)
}
