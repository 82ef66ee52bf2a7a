ghost use Rattle.std.specs.Prelude.{◌≡◌};
ghost use Rattle.ms_basic.specs.inner.Moved.{moved_form};
ghost use Rattle.ms_basic.specs.inner.Relation.{IsMadeUnder};

use crate::bits::BitsMachine;
use crate::down::DownMachine;
use crate::made::made;
use crate::repeated::ConstantMachine;
use crate::setting::Setting;
use crate::up::UpMachine;
use crate::windows::size;
use ms_dfa::Automaton;
use ms_list::StepFault;
use ms_logic_core::Basic;
use std::alloc::Global;

/// Whether a set is moved up or down.
#[derive(Clone, Copy)]
pub(crate) enum Direction {
    Up,
    Down,
}

/// The greatest distance for which a machine is made: with a greater one there are more states than any limit.
const GREATEST: u64 = 30;

/// `S = T + n` or `S = T - n`.
fn moved_form(direction: Direction, s: u32, t: u32, n: u64) -> Basic
    ensures { result ≡ moved_form direction s t n }
{
    match direction {
        Direction::Up => Basic::Up(s, t, n),
        Direction::Down => Basic::Down(s, t, n),
    }
}

/// The automaton of `S = T + n` or `S = T - n`.
pub(crate) fn moved(
    alloc: Global,
    direction: Direction,
    sets: (u32, u32),
    n: u64,
    setting: Setting,
) -> Result<Automaton, StepFault>
    ensures { IsMadeUnder setting (moved_form direction sets.0 sets.1 n) result }
{
    let (s, t) = sets;
    if s == t {
        let form = moved_form(direction, s, t, n);
        return if n == 0 {
            // Moved by 0, each set is itself.
            made(alloc, ConstantMachine { holds: true }, form, 1, setting)
        } else {
            // Moved further, only the empty set is.
            made(alloc, BitsMachine::none(setting.mode), form, 1, setting)
        };
    }
    if n > GREATEST {
        return Err(StepFault::Nodes {
            limit: setting.limit,
        });
    }
    let mode = setting.mode;
    let size = size(n);
    match direction {
        Direction::Up => {
            let form = Basic::Up(s, t, n);
            made(alloc, UpMachine { mode, size }, form, 2, setting)
        }
        Direction::Down => {
            let form = Basic::Down(s, t, n);
            made(alloc, DownMachine { size }, form, 2, setting)
        }
    }
}
