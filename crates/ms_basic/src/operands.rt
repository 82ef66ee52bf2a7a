ghost use Rattle.std.specs.Prelude.{◌≡◌, IfOk};
ghost use Rattle.ms_dfa.specs.Automaton.{variable_of, variables_of};
ghost use Rattle.ms_basic.specs.Operands.{number, set, truth_value};
ghost use Rattle.ms_logic_core.specs.Operands.{variables_of_basic};

use ms_dfa::Track;
use ms_list::{List, NoMemory, push};
use ms_logic::Order;
use ms_logic_core::Basic;
use std::alloc::Global;

/// The operand that is a truth value.
fn truth_value(variable: u32) -> Track
    ensures { variable_of result ≡ truth_value variable }
{
    Track {
        variable,
        order: Order::Zero,
    }
}

/// The operand that is a number.
fn number(variable: u32) -> Track
    ensures { variable_of result ≡ number variable }
{
    Track {
        variable,
        order: Order::One,
    }
}

/// The operand that is a set.
fn set(variable: u32) -> Track
    ensures { variable_of result ≡ set variable }
{
    Track {
        variable,
        order: Order::Two,
    }
}

/// The tracks in a list.
fn list(alloc: Global, tracks: &[Track]) -> Result<List<Track>, NoMemory>
    ensures { IfOk result (λ made. made ≡ tracks.now) }
{
    let mut made = List::new(alloc);
    for track in tracks {
        push(&mut made, *track)?;
    }
    Ok(made)
}

/// The operands of a relation.
pub(crate) fn operands(alloc: Global, form: Basic) -> Result<List<Track>, NoMemory>
    ensures { IfOk result (λ made. variables_of made ≡ variables_of_basic form) }
{
    match form {
        Basic::Truth(a) => list(alloc, &[truth_value(a)]),
        Basic::Number(x, _) => list(alloc, &[number(x)]),
        Basic::Plus(x, y, _) => list(alloc, &[number(x), number(y)]),
        Basic::Less(x, y) => list(alloc, &[number(x), number(y)]),
        Basic::Member(x, s) => list(alloc, &[number(x), set(s)]),
        Basic::Sub(s, t) => list(alloc, &[set(s), set(t)]),
        Basic::Union(s, t, u) => list(alloc, &[set(s), set(t), set(u)]),
        Basic::Inter(s, t, u) => list(alloc, &[set(s), set(t), set(u)]),
        Basic::Diff(s, t, u) => list(alloc, &[set(s), set(t), set(u)]),
        Basic::Up(s, t, _) => list(alloc, &[set(s), set(t)]),
        Basic::Down(s, t, _) => list(alloc, &[set(s), set(t)]),
        Basic::Min(x, s) => list(alloc, &[number(x), set(s)]),
        Basic::Max(x, s) => list(alloc, &[number(x), set(s)]),
        Basic::Bits(s, _) => list(alloc, &[set(s)]),
    }
}
