ghost use Rattle.std.specs.Prelude.{◌≡◌, ◌<◌, length};
ghost use Rattle.ms_arena.specs.Diagram.{leaf_of};
ghost use Rattle.ms_dfa.specs.Files.{content_of_file};
ghost use Rattle.ms_logic_words.specs.Content.{IsContent, NamesPart, last_state, next_state, state_after};
ghost use Rattle.ms_cert.specs.inner.Slots.{slot_bits, slots_of};

use ms_arena::Ref;
use ms_dfa::Plain;
use ms_list::{List, Word};

/// The bit of a variable.
fn bit_of(slots: &[usize], values: &[bool], variable: u32) -> bool
    requires { variable < length slots.now }
    ensures { result ≡ slot_bits slots.now values.now variable }
{
    match values.get(slots[variable as usize]) {
        Some(bit) => *bit,
        None => false,
    }
}

/// The state to which bits lead from a reference.
fn led_to(plain: &Plain, slots: &[usize], values: &[bool], from: Ref) -> u32
    requires content { IsContent (content_of_file plain.now) }
    requires slots { slots.now ≡ slots_of plain.now }
    requires named { NamesPart (content_of_file plain.now) from }
    ensures led { result ≡ leaf_of plain.now.nodes from (slot_bits slots.now values.now) }
    ensures state { result < length plain.now.states }
{
    let mut reference = from;
    'leading: loop {
        match reference {
            Ref::Leaf(state) => return state,
            Ref::Inner(place) => {
                let node = *plain.nodes.get(place as usize);
                reference = if bit_of(slots, values, node.var) {
                    node.high
                } else {
                    node.low
                };
            }
        }
    }
}

/// The state to which a letter leads.
pub(crate) fn step(plain: &Plain, slots: &[usize], from: u32, letter: &[bool]) -> u32
    requires content { IsContent (content_of_file plain.now) }
    requires slots { slots.now ≡ slots_of plain.now }
    requires from { from < length plain.now.states }
    ensures next { result ≡ next_state (content_of_file plain.now) from letter.now }
    ensures state { result < length plain.now.states }
{
    let next = plain.states.get(from as usize).next;
    led_to(plain, slots, letter, next)
}

/// The state after letters.
pub(crate) fn state_after(plain: &Plain, slots: &[usize], from: u32, letters: &[List<bool>]) -> u32
    requires content { IsContent (content_of_file plain.now) }
    requires slots { slots.now ≡ slots_of plain.now }
    requires from { from < length plain.now.states }
    ensures after { result ≡ state_after (content_of_file plain.now) from letters.now }
    ensures state { result < length plain.now.states }
{
    let mut state = from;
    for letter in letters {
        state = step(plain, slots, state, letter.slice());
    }
    state
}

/// The last state of the run of a word.
pub(crate) fn last_state(plain: &Plain, slots: &[usize], word: &Word) -> u32
    requires content { IsContent (content_of_file plain.now) }
    requires slots { slots.now ≡ slots_of plain.now }
    ensures { result ≡ last_state (content_of_file plain.now) word.now }
{
    let first = led_to(plain, slots, word.truth.slice(), plain.start);
    state_after(plain, slots, first, word.letters.slice())
}
