ghost use Rattle.ms_basic.specs.inner.Relation.{IsMadeUnder};

use crate::made::made;
use crate::setting::Setting;
use crate::verdict::sign_by_contradiction;
use ms_dfa::Automaton;
use ms_dfa_explore::{SmallMachine, TrackBits};
use ms_list::StepFault;
use ms_logic_core::Basic;
use ms_logic_words::Sign;
use std::alloc::Global;

/// The machine of a truth value.
#[derive(Clone, Copy)]
struct TruthMachine;

impl SmallMachine for TruthMachine {
    ghost use Rattle.ms_basic.specs.inner.Truth.{truth_table};

    ghost table = { λ machine. truth_table };

    fn states(&self) -> u32 {
        2
    }

    fn start(&self, bits: TrackBits) -> u32 {
        u32::from(bits.first)
    }

    fn step(&self, state: u32, bits: TrackBits) -> u32 {
        let _ = bits;
        state
    }

    fn sign(&self, state: u32) -> Sign {
        sign_by_contradiction(state)
    }
}

/// The automaton of a truth value.
pub(crate) fn truth(alloc: Global, a: u32, setting: Setting) -> Result<Automaton, StepFault>
    ensures { IsMadeUnder setting (Basic.Truth a) result }
{
    made(alloc, TruthMachine, Basic::Truth(a), 1, setting)
}
