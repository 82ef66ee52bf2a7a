ghost use Rattle.std.specs.Prelude.{◌≡◌, ◌≢◌};
ghost use Rattle.ms_basic.specs.inner.Pairs.{pair_form};
ghost use Rattle.ms_basic.specs.inner.Relation.{IsMadeUnder};

use crate::made::made;
use crate::repeated::OneNumberMachine;
use crate::setting::Setting;
use crate::verdict::sign_by_verdict;
use crate::{greatest, least, less, member};
use ms_dfa::Automaton;
use ms_dfa_explore::{SmallMachine, TrackBits};
use ms_list::StepFault;
use ms_logic_core::Basic;
use ms_logic_words::Sign;
use std::alloc::Global;

/// A relation of a number to a second operand, which is another number or a set.
#[derive(Clone, Copy)]
pub(crate) enum PairRelation {
    Less,
    Member,
    Least,
    Greatest,
}

/// The relation as a basic one.
fn pair_form(relation: PairRelation, x: u32, other: u32) -> Basic
    ensures { result ≡ pair_form relation x other }
{
    match relation {
        PairRelation::Less => Basic::Less(x, other),
        PairRelation::Member => Basic::Member(x, other),
        PairRelation::Least => Basic::Min(x, other),
        PairRelation::Greatest => Basic::Max(x, other),
    }
}

/// The machine of a relation of a number to a second operand.
#[derive(Clone, Copy)]
struct PairMachine {
    relation: PairRelation,
}

impl SmallMachine for PairMachine {
    ghost use Rattle.ms_basic.specs.inner.Pairs.{pair_table};

    ghost table = { λ machine. pair_table machine.relation };

    fn states(&self) -> u32 {
        match self.relation {
            PairRelation::Less => 6,
            PairRelation::Member => 4,
            PairRelation::Least => 7,
            PairRelation::Greatest => 5,
        }
    }

    fn start(&self, bits: TrackBits) -> u32 {
        let _ = bits;
        match self.relation {
            PairRelation::Less => less::START,
            PairRelation::Member => member::START,
            PairRelation::Least => least::START,
            PairRelation::Greatest => greatest::START,
        }
    }

    fn step(&self, state: u32, bits: TrackBits) -> u32 {
        match self.relation {
            PairRelation::Less => less::step(state, bits.first, bits.second),
            PairRelation::Member => member::step(state, bits.first, bits.second),
            PairRelation::Least => least::step(state, bits.first, bits.second),
            PairRelation::Greatest => greatest::step(state, bits.first, bits.second),
        }
    }

    fn sign(&self, state: u32) -> Sign {
        match self.relation {
            PairRelation::Least => least::sign(state),
            _ => sign_by_verdict(state),
        }
    }
}

/// The automaton of a relation of a number to a second operand.
pub(crate) fn pair(
    alloc: Global,
    relation: PairRelation,
    x: u32,
    other: u32,
    setting: Setting,
) -> Result<Automaton, StepFault>
    requires differ { x ≢ other }
    ensures { IsMadeUnder setting (pair_form relation x other) result }
{
    let form = pair_form(relation, x, other);
    made(alloc, PairMachine { relation }, form, 2, setting)
}

/// The automaton of `x < y`.
pub(crate) fn less(alloc: Global, x: u32, y: u32, setting: Setting) -> Result<Automaton, StepFault>
    ensures { IsMadeUnder setting (Basic.Less x y) result }
{
    if x == y {
        let form = Basic::Less(x, y);
        made(alloc, OneNumberMachine { holds: false }, form, 1, setting)
    } else {
        pair(alloc, PairRelation::Less, x, y, setting)
    }
}
