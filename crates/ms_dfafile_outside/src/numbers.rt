ghost use Rattle.std.specs.Prelude.{◌≡◌, ◌↔◌, ◌≤◌, map, IfOk, IsTrue, MatchOption};
ghost use Rattle.ms_logic.specs.declared.mode.Order.TheVariants.{One};
ghost use Rattle.ms_dfafile_outside.specs.inner.Numbers.{AreSetsBefore, numbers_in};

use ms_dfa::FileVar;
use ms_list::{List, NoMemory, push};
use ms_logic::Order;
use std::alloc::Global;

/// The set of 31 numbers, the most that there may be.
const MOST: u32 = 2147483647;

/// Whether a variable of the order is a number.
fn is_number(order: Order) -> bool
    ensures { IsTrue result ↔ (order ≡ One) }
{
    match order {
        Order::One => true,
        Order::Zero => false,
        Order::Two => false,
    }
}

/// For each variable, and behind the last, the set of the numbers before it; none where there are too many for a set.
pub(crate) fn sets_before(
    alloc: Global,
    variables: &[FileVar],
) -> Result<Option<List<u32>>, NoMemory>
    ensures { IfOk result (λ made. MatchOption made (32 ≤ numbers_in (map (λ v. v.order) variables.now)) (AreSetsBefore (map (λ v. v.order) variables.now))) }
{
    let mut sets = List::new(alloc);
    let mut before = 0u32;
    push(&mut sets, before)?;
    for variable in variables {
        if is_number(variable.order) {
            if before >= MOST {
                return Ok(None);
            }
            before = 2 * before + 1;
        }
        push(&mut sets, before)?;
    }
    Ok(Some(sets))
}
