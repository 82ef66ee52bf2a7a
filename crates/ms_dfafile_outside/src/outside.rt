ghost use Rattle.std.specs.Prelude.{◌≡◌, ◌<◌, ◌^◌, ◌↔◌, IfOk, IsTrue, length};
ghost use Rattle.ms_dfa.specs.Files.{MarksOutside, content_of_file};
ghost use Rattle.ms_dfafile_outside.specs.declared.label.Label.TheVariants.{Seen};
ghost use Rattle.ms_dfafile_outside.specs.inner.Labels.{AreLabels, HasArrived, orders_in};
ghost use Rattle.ms_dfafile_outside.specs.inner.Numbers.{AreSetsBefore};
ghost use Rattle.ms_logic_words.specs.Content.{IsContent};

use crate::arrival::{Arrival, arrive};
use crate::label::Label;
use crate::labels::Labels;
use crate::numbers::sets_before;
use crate::settling::settle;
use ms_dfa::Plain;
use ms_list::NoMemory;
use std::alloc::Global;

/// Hands on each label, in the order in which they come, until none is left.
fn follow(plain: &Plain, sets: &[u32], labels: &mut Labels) -> Result<bool, NoMemory>
    requires content { IsContent (content_of_file plain.now) }
    requires few { length plain.now.states < 2 ^ 32 }
    requires sets { AreSetsBefore (orders_in (content_of_file plain.now)) sets.now }
    requires labels { AreLabels (content_of_file plain.now) labels.old.known.items labels.old.work }
    requires start { HasArrived (content_of_file plain.now) labels.old.known.items plain.now.start (Seen 0) (length plain.now.variables) }
    ensures { IfOk result (λ marks. IsTrue marks ↔ MarksOutside (content_of_file plain.now)) }
{
    let mut done = 0;
    while done < labels.work.len() {
        let reference = *labels.work.get(done);
        if !settle(plain, sets, labels, reference)? {
            return Ok(false);
        }
        done += 1;
    }
    Ok(true)
}

/// Whether the content has the sign `x` for exactly those words that encode no assignment.
pub fn marks_outside(alloc: Global, plain: &Plain) -> Result<bool, NoMemory>
    requires content { IsContent (content_of_file plain.now) }
    requires few { length plain.now.states < 2 ^ 32 }
    ensures { IfOk result (λ marks. IsTrue marks ↔ MarksOutside (content_of_file plain.now)) }
{
    let Some(sets) = sets_before(alloc, plain.variables.slice())? else {
        return Ok(false);
    };
    let count = plain.states.len() + plain.nodes.slice().len();
    let mut labels = Labels::none(alloc, count)?;
    let start = Arrival {
        reference: plain.start,
        label: Label::Seen(0),
        level: plain.variables.len(),
    };
    if !arrive(plain, sets.slice(), &mut labels, start)? {
        return Ok(false);
    }
    follow(plain, sets.slice(), &mut labels)
}
