ghost use Rattle.std.specs.Prelude.{◌≡◌, length};
ghost use Rattle.ms_logic_core.specs.Operands.{variables_of_basic};
ghost use Rattle.ms_basic.specs.inner.Related.{is_of_itself, sets_form};
ghost use Rattle.ms_basic.specs.inner.Relation.{IsMadeUnder};
ghost use Rattle.ms_basic.specs.Sets.{agrees};

use crate::made::made;
use crate::repeated::ConstantMachine;
use crate::setting::Setting;
use crate::verdict::{AGREED, CONTRADICTED, sign_by_contradiction};
use ms_dfa::Automaton;
use ms_dfa_explore::{SmallMachine, TrackBits};
use ms_list::StepFault;
use ms_logic_core::Basic;
use ms_logic_words::Sign;
use std::alloc::Global;

/// A relation between sets that holds where the bits of each position agree with it.
#[derive(Clone, Copy)]
pub(crate) enum SetRelation {
    Sub,
    Union,
    Inter,
    Diff,
}

/// How many operands the relation has.
fn count(relation: SetRelation) -> usize
    ensures { result ≡ length (variables_of_basic (sets_form relation 0 0 0)) }
{
    match relation {
        SetRelation::Sub => 2,
        SetRelation::Union | SetRelation::Inter | SetRelation::Diff => 3,
    }
}

/// The relation as a basic one; of an inclusion there is no third set.
fn sets_form(relation: SetRelation, s: u32, t: u32, u: u32) -> Basic
    ensures { result ≡ sets_form relation s t u }
{
    match relation {
        SetRelation::Sub => Basic::Sub(s, t),
        SetRelation::Union => Basic::Union(s, t, u),
        SetRelation::Inter => Basic::Inter(s, t, u),
        SetRelation::Diff => Basic::Diff(s, t, u),
    }
}

/// Whether the operands are one set, and each set has the relation to itself.
fn is_of_itself(relation: SetRelation, s: u32, t: u32, u: u32) -> bool
    ensures { result ≡ is_of_itself relation s t u }
{
    match relation {
        SetRelation::Sub => s == t,
        SetRelation::Union | SetRelation::Inter => s == t && t == u,
        SetRelation::Diff => false,
    }
}

/// Whether the bits of a position agree with the relation.
fn agrees(relation: SetRelation, bits: TrackBits) -> bool
    ensures { result ≡ agrees relation bits }
{
    match relation {
        SetRelation::Sub => !bits.first || bits.second,
        SetRelation::Union => bits.first == (bits.second || bits.third),
        SetRelation::Inter => bits.first == (bits.second && bits.third),
        SetRelation::Diff => bits.first == (bits.second && !bits.third),
    }
}

/// The machine of a relation between sets: the first position that does not agree with it contradicts it.
#[derive(Clone, Copy)]
struct SetsMachine {
    relation: SetRelation,
}

impl SmallMachine for SetsMachine {
    ghost use Rattle.ms_basic.specs.Sets.{sets_table};

    ghost table = { λ machine. sets_table machine.relation };

    fn states(&self) -> u32 {
        2
    }

    fn start(&self, bits: TrackBits) -> u32 {
        let _ = bits;
        AGREED
    }

    fn step(&self, state: u32, bits: TrackBits) -> u32 {
        if state == AGREED && agrees(self.relation, bits) {
            AGREED
        } else {
            CONTRADICTED
        }
    }

    fn sign(&self, state: u32) -> Sign {
        sign_by_contradiction(state)
    }
}

/// The automaton of a relation between sets.
pub(crate) fn sets(
    alloc: Global,
    relation: SetRelation,
    operands: (u32, u32, u32),
    setting: Setting,
) -> Result<Automaton, StepFault>
    ensures { IsMadeUnder setting (sets_form relation operands.0 operands.1 operands.2) result }
{
    let (s, t, u) = operands;
    let form = sets_form(relation, s, t, u);
    if is_of_itself(relation, s, t, u) {
        return made(alloc, ConstantMachine { holds: true }, form, 1, setting);
    }
    made(
        alloc,
        SetsMachine { relation },
        form,
        count(relation),
        setting,
    )
}
