ghost use Rattle.std.specs.Prelude.{◌≡◌, ◌≤◌, ◌<◌, ◌+◌, ◌*◌, [], length, IfOk};
ghost use Rattle.ms_logic_core.specs.CoreForm.{basic as basic_relation};
ghost use Rattle.ms_logic_words.specs.Residual.{AreReached, HaveDifferentResiduals};
ghost use Rattle.ms_dfa.specs.Values.{HasValues, core_meaning};
ghost use Rattle.ms_dfa_explore.specs.Explored.{OnRefused};
ghost use Rattle.ms_dfa_explore.specs.Tracks.{distinct};
ghost use Rattle.ms_basic.specs.Operands.{HaveOneOrder};
ghost use Rattle.ms_logic_core.specs.Operands.{variables_of_basic};
ghost use Rattle.ms_basic.specs.inner.Relation.{IsMadeUnder};
ghost use Rattle.ms_basic.specs.States.{states_of};

use crate::bits::bits;
use crate::moved::{Direction, moved};
use crate::number::number;
use crate::pairs::{PairRelation, less, pair};
use crate::plus::plus;
use crate::sets::{SetRelation, sets};
use crate::setting::Setting;
use crate::truth::truth;
use ms_dfa::Automaton;
use ms_list::StepFault;
use ms_logic::Mode;
use ms_logic_core::Basic;
use std::alloc::Global;

/// The automaton of a relation, by its kind.
fn relation(alloc: Global, form: Basic, setting: Setting) -> Result<Automaton, StepFault>
    requires orders { HaveOneOrder (variables_of_basic form) }
    ensures { IsMadeUnder setting form result }
{
    match form {
        Basic::Truth(a) => truth(alloc, a, setting),
        Basic::Number(x, n) => number(alloc, x, n, setting),
        Basic::Plus(x, y, n) => plus(alloc, x, y, n, setting),
        Basic::Less(x, y) => less(alloc, x, y, setting),
        Basic::Member(x, s) => pair(alloc, PairRelation::Member, x, s, setting),
        Basic::Sub(s, t) => sets(alloc, SetRelation::Sub, (s, t, t), setting),
        Basic::Union(s, t, u) => sets(alloc, SetRelation::Union, (s, t, u), setting),
        Basic::Inter(s, t, u) => sets(alloc, SetRelation::Inter, (s, t, u), setting),
        Basic::Diff(s, t, u) => sets(alloc, SetRelation::Diff, (s, t, u), setting),
        Basic::Up(s, t, n) => moved(alloc, Direction::Up, (s, t), n, setting),
        Basic::Down(s, t, n) => moved(alloc, Direction::Down, (s, t), n, setting),
        Basic::Min(x, s) => pair(alloc, PairRelation::Least, x, s, setting),
        Basic::Max(x, s) => pair(alloc, PairRelation::Greatest, x, s, setting),
        Basic::Bits(s, n) => bits(alloc, s, n, setting),
    }
}

/// The automaton of a basic relation over its variables. Some word leads to each of its states, and no two of them have equal
/// residuals. Nodes and states are together at most `limit`, and the call is refused only where it is below eight for each
/// state and for the start.
pub fn basic(alloc: Global, form: &Basic, mode: Mode, limit: u64) -> Result<Automaton, StepFault>
    requires orders { HaveOneOrder (variables_of_basic form.now) }
    requires some { 1 ≤ limit }
    requires small { limit ≤ 4000000000 }
    ensures mode { IfOk result (λ made. made.mode ≡ mode) }
    ensures variables { IfOk result (λ made. made.variables ≡ distinct (variables_of_basic form.now)) }
    ensures values { IfOk result (λ made. HasValues (core_meaning [] (basic_relation form.now)) made) }
    ensures differ { IfOk result HaveDifferentResiduals }
    ensures reached { IfOk result AreReached }
    ensures within { IfOk result (λ made. length made.nodes + length made.states ≤ limit) }
    ensures nodes { OnRefused result (λ refused. (refused ≡ limit) × (limit < 8 * (states_of form.now + 1))) }
{
    relation(alloc, *form, Setting { mode, limit })
}
