//! The tests of what the operations ask of the orders of variables.
ghost use Rattle.std.specs.Prelude.{◌≡◌, IsTrue};
ghost use Rattle.ms_logic.specs.Assignment.{Variable};
ghost use Rattle.ms_dfa.specs.Automaton.{variable_of, variables_of};
ghost use Rattle.ms_logic.specs.Lists.{IsAmong};
ghost use Rattle.ms_basic.specs.Operands.{HaveOneOrder};
ghost use Rattle.ms_logic_core.specs.Operands.{variables_of_basic};
ghost use Rattle.ms_product.specs.Combined.{HaveEqualOrders};

use ms_dfa::Track;
use ms_logic_core::Basic;

/// Whether no track has this one's variable with another order.
fn agrees(track: Track, tracks: &[Track]) -> bool
    ensures { IsTrue result → (w : Variable) → IsAmong (variables_of tracks.now) w → track.variable ≡ w.name → variable_of track ≡ w }
{
    for other in tracks {
        if other.variable == track.variable && other.order != track.order {
            return false;
        }
    }
    true
}

/// Whether variables of both lists with one number have one order.
pub fn have_equal_orders(left: &[Track], right: &[Track]) -> bool
    ensures { IsTrue result → HaveEqualOrders (variables_of left.now) (variables_of right.now) }
{
    for track in left {
        if !agrees(*track, right) {
            return false;
        }
    }
    true
}

/// Whether a track is one of the list.
pub fn contains(tracks: &[Track], track: Track) -> bool
    ensures { IsTrue result → IsAmong (variables_of tracks.now) (variable_of track) }
{
    for other in tracks {
        if other.variable == track.variable && other.order == track.order {
            return true;
        }
    }
    false
}

/// Whether each track of one list is in another.
pub fn are_among(some: &[Track], all: &[Track]) -> bool
    ensures { IsTrue result → (v : Variable) → IsAmong (variables_of some.now) v → IsAmong (variables_of all.now) v }
{
    for track in some {
        if !contains(all, *track) {
            return false;
        }
    }
    true
}

/// Whether no variable of a relation stands for a number and for a set.
pub fn has_one_order(form: &Basic) -> bool
    ensures { IsTrue result → HaveOneOrder (variables_of_basic form.now) }
{
    match *form {
        Basic::Member(x, s) | Basic::Min(x, s) | Basic::Max(x, s) => x != s,
        Basic::Truth(_) | Basic::Number(_, _) | Basic::Bits(_, _) => true,
        Basic::Plus(_, _, _) | Basic::Less(_, _) => true,
        Basic::Sub(_, _) | Basic::Up(_, _, _) | Basic::Down(_, _, _) => true,
        Basic::Union(_, _, _) | Basic::Inter(_, _, _) | Basic::Diff(_, _, _) => true,
    }
}
