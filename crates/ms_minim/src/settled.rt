ghost use Rattle.std.specs.Prelude.{◌≡◌, ◌<◌, [], length, IsTrue, IfOk};
ghost use Rattle.ms_dfa_explore.specs.Explored.{Follows, Leads};
ghost use Rattle.ms_minim.specs.inner.Lead.{AreNumbered};
ghost use Rattle.ms_minim.specs.inner.Quotient.{IsQuotient, quotient_findings};

use crate::images::image;
use crate::quotient::{QuotientTables, Source};
use ms_arena::Ref;
use ms_dfa::State;
use ms_diagram::Pairs;
use ms_list::{List, NoMemory, push};

/// The image of the start.
pub(crate) fn own_start(source: &Source, pairs: &Pairs, tables: &QuotientTables) -> Ref
    requires quotient { IsQuotient source.now.automaton.now source.now.partition.classes source.now.partition.members source.now.places pairs.now }
    requires tables { AreNumbered source.now.automaton.now source.now.places source.now.partition.classes pairs.now [] tables.now }
    requires settled { IsTrue tables.now.settled }
    ensures { Leads tables.now.images.store.nodes (quotient_findings source.now.automaton.now source.now.partition.classes source.now.partition.members pairs.now).starts result }
{
    let root = source.automaton.start_ref();
    let classes = source.partition.classes.slice();
    image(&tables.images.list, classes, root)
}

/// The state of the class of a number, which leads on by the image of what the state of the class leads on by.
fn own_state(source: &Source, pairs: &Pairs, tables: &QuotientTables, number: u32) -> State
    requires number { number < length pairs.now }
    requires quotient { IsQuotient source.now.automaton.now source.now.partition.classes source.now.partition.members source.now.places pairs.now }
    requires tables { AreNumbered source.now.automaton.now source.now.places source.now.partition.classes pairs.now [] tables.now }
    requires settled { IsTrue tables.now.settled }
    ensures leads { Leads tables.now.images.store.nodes ((quotient_findings source.now.automaton.now source.now.partition.classes source.now.partition.members pairs.now).steps number) result.next }
    ensures sign { result.sign ≡ (quotient_findings source.now.automaton.now source.now.partition.classes source.now.partition.members pairs.now).sign_of number }
{
    let (class, _) = pairs.get(number);
    let member = *source.partition.members.get(class as usize);
    let sign = source.automaton.sign(member);
    let root = source.automaton.next_ref(member);
    let classes = source.partition.classes.slice();
    let next = image(&tables.images.list, classes, root);
    State { sign, next }
}

/// The states of all classes.
pub(crate) fn own_states(
    source: &Source,
    pairs: &Pairs,
    tables: &QuotientTables,
) -> Result<List<State>, NoMemory>
    requires quotient { IsQuotient source.now.automaton.now source.now.partition.classes source.now.partition.members source.now.places pairs.now }
    requires tables { AreNumbered source.now.automaton.now source.now.places source.now.partition.classes pairs.now [] tables.now }
    requires settled { IsTrue tables.now.settled }
    ensures all { IfOk result (λ made. length made ≡ length pairs.now) }
    ensures follows { IfOk result (λ made. Follows tables.now.images.store.nodes (quotient_findings source.now.automaton.now source.now.partition.classes source.now.partition.members pairs.now) made) }
{
    let mut states = List::new(source.alloc);
    for number in 0..pairs.len() {
        let state = own_state(source, pairs, tables, number);
        push(&mut states, state)?;
    }
    Ok(states)
}
