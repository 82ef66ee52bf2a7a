ghost use Rattle.std.specs.Prelude.{◌≡◌, ◌≤◌, ◌<◌, ◌⊎◌, [], ◌∷◌, IfOk, ◌+◌, length};
ghost use Rattle.ms_dfa.specs.Automaton.{variable_of, variables_of};
ghost use Rattle.ms_logic_words.specs.declared.sign.Sign.{Sign};
ghost use Rattle.ms_logic_words.specs.Content.{Content};
ghost use Rattle.ms_logic.specs.Lists.{AreRising};
ghost use Rattle.ms_dfa.specs.Values.{HasValues, own_meaning};
ghost use Rattle.ms_dfa_explore.specs.Explored.{OnRefused};
ghost use Rattle.ms_dfa_explore.specs.Tracks.{merged};
ghost use Rattle.ms_product.specs.Combined.{HaveEqualOrders};
ghost use Rattle.ms_product.specs.Pairing.{AreAtLeast, operands_of};
ghost use Rattle.ms_rename.specs.Whole.{HasNoNumber, IsSmallWhole, ReachedBesideWhole};

use ms_arena::Ref;
use ms_basic::basic;
use ms_dfa::{Automaton, State, Track, copy_tracks};
use ms_diagram::Store;
use ms_list::{List, NoMemory, StepFault, push};
use ms_logic::{Mode, Order};
use ms_logic_core::Basic;
use ms_logic_words::Sign;
use ms_product::{Op, combine};
use std::alloc::Global;

/// The automaton that holds at each value of these variables, none of which is a number: each word over them encodes values.
fn free(alloc: Global, tracks: &[Track], mode: Mode) -> Result<Automaton, NoMemory>
    requires rising { AreRising (variables_of tracks.now) }
    requires numbers { HasNoNumber (variables_of tracks.now) }
    ensures mode { IfOk result (λ made. made.mode ≡ mode) }
    ensures whole { IfOk result (IsSmallWhole (variables_of tracks.now)) }
{
    let tracks = copy_tracks(alloc, tracks)?;
    let mut states = List::new(alloc);
    let state = State {
        sign: Sign::Yes,
        next: Ref::Leaf(0),
    };
    push(&mut states, state)?;
    let store = Store::new(alloc, 1);
    Ok(Automaton::make(store, mode, tracks, Ref::Leaf(0), states))
}

/// More nodes and states than the automaton of a number has.
const FEW: u64 = 32;

/// The automaton that holds at each value of a number.
fn whole_number(
    alloc: Global,
    variable: u32,
    mode: Mode,
    limit: u64,
) -> Result<Automaton, StepFault>
    requires some { 1 ≤ limit }
    requires small { limit ≤ 4000000000 }
    ensures mode { IfOk result (λ made. made.mode ≡ mode) }
    ensures whole { IfOk result (IsSmallWhole (record { name = variable; order = Order.One } ∷ [])) }
    ensures nodes { OnRefused result (λ refused. (refused ≡ limit) × (limit < 32)) }
{
    match basic(
        alloc,
        &Basic::Plus(variable, variable, 0),
        mode,
        limit.min(FEW),
    ) {
        Ok(made) => {
            // The states tell that it is an automaton.
            let _ = made.states();
            Ok(made)
        }
        Err(StepFault::Memory) => Err(StepFault::Memory),
        Err(StepFault::Nodes { .. }) => Err(StepFault::Nodes { limit }),
    }
}

/// The automaton that holds at each value of one variable.
fn whole(alloc: Global, track: Track, mode: Mode, limit: u64) -> Result<Automaton, StepFault>
    requires some { 1 ≤ limit }
    requires small { limit ≤ 4000000000 }
    ensures mode { IfOk result (λ made. made.mode ≡ mode) }
    ensures whole { IfOk result (IsSmallWhole (variable_of track ∷ [])) }
    ensures nodes { OnRefused result (λ refused. (refused ≡ limit) × (limit < 32)) }
{
    if track.order == Order::One {
        return whole_number(alloc, track.variable, mode, limit);
    }
    match free(alloc, &[track], mode) {
        Ok(made) => Ok(made),
        Err(_) => Err(StepFault::Memory),
    }
}

/// The automaton over one track more, of which its signs do not depend: at each assignment the sign of `a`. Nodes and states
/// are together at most `limit`.
pub fn widen(alloc: Global, a: &Automaton, track: Track, limit: u64) -> Result<Automaton, StepFault>
    requires orders { HaveEqualOrders a.now.variables (variable_of track ∷ []) }
    requires some { 1 ≤ limit }
    requires small { limit ≤ 4000000000 }
    ensures mode { IfOk result (λ made. made.mode ≡ a.now.mode) }
    ensures variables { IfOk result (λ made. made.variables ≡ merged a.now.variables (variable_of track ∷ [])) }
    ensures values { IfOk result (HasValues (own_meaning a.now)) }
    ensures within { IfOk result (λ made. length made.nodes + length made.states ≤ limit) }
    ensures size { IfOk result (λ made. ReachedBesideWhole (length made.nodes + length made.states) (variable_of track ∷ []) a.now) }
    ensures nodes { OnRefused result (λ refused. (refused ≡ limit)
        × ((limit < 32) ⊎ ((other : Content Sign) × IsSmallWhole (variable_of track ∷ []) other × AreAtLeast limit Op.And (operands_of a.now other)))) }
    ensures reached_nodes { OnRefused result (λ refused. (limit < 32) ⊎ ReachedBesideWhole limit (variable_of track ∷ []) a.now) }
{
    // The numbers of states tell that these are automata.
    let _ = a.states();
    let other = match whole(alloc, track, a.mode(), limit) {
        Ok(other) => other,
        Err(fault) => return Err(fault),
    };
    let _ = other.states();
    combine(alloc, a, &other, Op::And, limit)
}

/// The same over many tracks more, none of which is that of a number.
pub fn widen_all(
    alloc: Global,
    a: &Automaton,
    tracks: &[Track],
    limit: u64,
) -> Result<Automaton, StepFault>
    requires rising { AreRising (variables_of tracks.now) }
    requires numbers { HasNoNumber (variables_of tracks.now) }
    requires orders { HaveEqualOrders a.now.variables (variables_of tracks.now) }
    requires some { 1 ≤ limit }
    requires small { limit ≤ 4000000000 }
    ensures mode { IfOk result (λ made. made.mode ≡ a.now.mode) }
    ensures variables { IfOk result (λ made. made.variables ≡ merged a.now.variables (variables_of tracks.now)) }
    ensures values { IfOk result (HasValues (own_meaning a.now)) }
    ensures within { IfOk result (λ made. length made.nodes + length made.states ≤ limit) }
    ensures size { IfOk result (λ made. ReachedBesideWhole (length made.nodes + length made.states) (variables_of tracks.now) a.now) }
    ensures nodes { OnRefused result (λ refused. (refused ≡ limit)
        × ((other : Content Sign) × IsSmallWhole (variables_of tracks.now) other × AreAtLeast limit Op.And (operands_of a.now other))) }
    ensures reached_nodes { OnRefused result (λ refused. ReachedBesideWhole limit (variables_of tracks.now) a.now) }
{
    // The numbers of states tell that these are automata.
    let _ = a.states();
    let Ok(other) = free(alloc, tracks, a.mode()) else {
        return Err(StepFault::Memory);
    };
    let _ = other.states();
    combine(alloc, a, &other, Op::And, limit)
}
