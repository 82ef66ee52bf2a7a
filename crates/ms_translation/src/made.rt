//! What was made, where memory was not refused.

ghost use Rattle.std.specs.Prelude.{◌≡◌, Ok, IfOk, IsOk, OnOk};

use ms_list::{Boxed, List, NoMemory, on_heap};
use ms_logic::Formula;
use std::alloc::Global;

/// A formula, where it was made.
pub type Made = Result<Formula, NoMemory>;

/// A list of formulas, where it was made.
pub type MadeList = Result<List<Formula>, NoMemory>;

/// What was made, on the heap.
pub fn heaped<T: Drop>(alloc: Global, made: Result<T, NoMemory>) -> Result<Boxed<T>, NoMemory>
    ensures { IfOk result (λ boxed. made ≡ Ok boxed) }
{
    on_heap(alloc, made?)
}

/// Both, where both were made.
pub fn both<A: Drop, B: Drop>(
    one: Result<A, NoMemory>,
    other: Result<B, NoMemory>,
) -> Result<(A, B), NoMemory>
    ensures one { IfOk result (λ made. one ≡ Ok made.0) }
    ensures other { IfOk result (λ made. other ≡ Ok made.1) }
{
    let one = one?;
    Ok((one, other?))
}

/// What was made, where what came behind it was done.
pub fn and_then<T: Drop>(
    made: Result<T, NoMemory>,
    done: Result<(), NoMemory>,
) -> Result<T, NoMemory>
    ensures made { IfOk result (λ value. made ≡ Ok value) }
    ensures done { OnOk result (IsOk done) }
{
    done?;
    made
}
