ghost use Rattle.std.specs.Prelude.{◌≡◌, ◌<◌, ◌↔◌, ◌^◌, IfOk, IsTrue, length};
ghost use Rattle.ms_dfa.specs.Files.{content_of_file};
ghost use Rattle.ms_dfafile_outside.specs.inner.Labels.{AreLabels, Finds, HasArrived, HasCome, HasNoGap, first_tested, index_of, orders_in};
ghost use Rattle.ms_dfafile_outside.specs.inner.Numbers.{AreSetsBefore};
ghost use Rattle.ms_logic_words.specs.Content.{IsContent, NamesPart};

use crate::label::Label;
use crate::labels::Labels;
use ms_arena::Ref;
use ms_dfa::Plain;
use ms_list::NoMemory;

/// Words come to a reference with a label; what they read of their last letter ends before the level.
#[derive(Clone, Copy)]
pub(crate) struct Arrival {
    pub reference: Ref,
    pub label: Label,
    pub level: usize,
}

/// States come first, and then nodes.
pub(crate) fn index_of(plain: &Plain, reference: Ref) -> usize
    requires named { NamesPart (content_of_file plain.now) reference }
    requires few { length plain.now.states < 2 ^ 32 }
    ensures { result ≡ index_of (content_of_file plain.now) reference }
{
    match reference {
        Ref::Leaf(state) => state as usize,
        Ref::Inner(place) => plain.states.len() + place as usize,
    }
}

/// The variable that the reference tests, and the place behind all variables where it tests none.
fn first_tested(plain: &Plain, reference: Ref) -> usize
    requires { NamesPart (content_of_file plain.now) reference }
    ensures { result ≡ first_tested (content_of_file plain.now) reference }
{
    match reference {
        Ref::Leaf(_) => plain.variables.len(),
        Ref::Inner(place) => plain.nodes.get(place as usize).var as usize,
    }
}

/// Whether no number stands between the level and what is tested next, or none matters.
fn has_no_gap(plain: &Plain, sets: &[u32], arrival: Arrival) -> bool
    requires content { IsContent (content_of_file plain.now) }
    requires named { NamesPart (content_of_file plain.now) arrival.reference }
    requires sets { AreSetsBefore (orders_in (content_of_file plain.now)) sets.now }
    requires come { HasCome (content_of_file plain.now) arrival.reference arrival.label arrival.level }
    ensures { IsTrue result ↔ HasNoGap (content_of_file plain.now) arrival.reference arrival.label arrival.level }
{
    match arrival.label {
        Label::Lost => true,
        Label::Seen(_) => { sets[first_tested(plain, arrival.reference)] <= sets[arrival.level] }
    }
}

/// Gives a reference the label with which words come to it.
pub(crate) fn arrive(
    plain: &Plain,
    sets: &[u32],
    labels: &mut Labels,
    arrival: Arrival,
) -> Result<bool, NoMemory>
    requires content { IsContent (content_of_file plain.now) }
    requires few { length plain.now.states < 2 ^ 32 }
    requires sets { AreSetsBefore (orders_in (content_of_file plain.now)) sets.now }
    requires named { NamesPart (content_of_file plain.now) arrival.reference }
    requires come { HasCome (content_of_file plain.now) arrival.reference arrival.label arrival.level }
    requires labels { AreLabels (content_of_file plain.now) labels.old.known.items labels.old.work }
    ensures { IfOk result (Finds (content_of_file plain.now) labels.old.known.items labels.new.known.items labels.old.work labels.new.work (HasArrived (content_of_file plain.now) labels.new.known.items arrival.reference arrival.label arrival.level)) }
{
    if !has_no_gap(plain, sets, arrival) {
        return Ok(false);
    }
    labels.note(
        index_of(plain, arrival.reference),
        arrival.reference,
        arrival.label,
    )
}
