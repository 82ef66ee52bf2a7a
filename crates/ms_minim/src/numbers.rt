ghost use Rattle.std.specs.Prelude.{IsTrue, IfOk};
ghost use Rattle.ms_diagram.specs.Numbering.{IsNumbering};
ghost use Rattle.ms_minim.specs.inner.Origin.{AreOrigins};
ghost use Rattle.ms_minim.specs.inner.Partition.{AreNerodeClasses};
ghost use Rattle.ms_minim.specs.inner.Quotient.{AreReached, HaveOwnNumbers};

use crate::classes::Partition;
use crate::origins::{Origins, reach_all};
use crate::reading::Reader;
use ms_diagram::Pairs;
use ms_list::NoMemory;
use std::alloc::Global;

/// The numbers that classes have before a quotient is explored, each as the pair of the class and 0.
#[derive(Drop)]
pub(crate) struct Numbered {
    pub pairs: Pairs,
    // Each class has its own number.
    pub settled: bool,
}

/// Where words lead to all states, each class has its own number from the first; else none has one.
pub(crate) fn first_numbers(
    alloc: Global,
    automaton: &Reader,
    origins: &Origins,
    partition: &Partition,
) -> Result<Numbered, NoMemory>
    requires origins { AreOrigins automaton.now origins.now }
    requires partition { AreNerodeClasses automaton.now partition.now.classes partition.now.members }
    ensures numbering { IfOk result (λ made. IsNumbering made.pairs) }
    ensures reached { IfOk result (λ made. AreReached automaton.now partition.now.classes made.pairs) }
    ensures settled { IfOk result (λ made. IsTrue made.settled → HaveOwnNumbers partition.now.classes made.pairs) }
{
    // The states tell that it is an automaton.
    let _ = automaton.states();
    if !reach_all(origins) {
        let pairs = Pairs::new(alloc);
        // The length tells that these are a numbering.
        let _ = pairs.len();
        return Ok(Numbered {
            pairs,
            settled: false,
        });
    }
    let pairs = Pairs::own(alloc, partition.members.len() as u32)?;
    let _ = pairs.len();
    Ok(Numbered {
        pairs,
        settled: true,
    })
}
