ghost use Rattle.std.specs.BTreeSet.{btree_set_len, contains};
ghost use Rattle.std.specs.Ordering.{nat_cmp};
ghost use Rattle.std.specs.Prelude.{◌≡◌, ◌==◌, ◌<◌, ◌&&◌, ℕ, if◌then◌else◌, false, nat_lt, true, IfNone, IfSome, OnOk, OnSome};

use ms_list::NoMemory;
use std::collections::BTreeSet;

/// One number more.
pub(crate) fn insert(numbers: &mut BTreeSet<usize>, number: usize) -> Result<(), NoMemory>
    ensures { OnOk result ((k : ℕ) → contains nat_cmp numbers.new k ≡ (if number == k then true else contains nat_cmp numbers.old k)) }
{
    match numbers.insert(number) {
        Ok(_) => Ok(()),
        Err(_) => Err(NoMemory),
    }
}

/// The least of the numbers, which are then without it.
pub(crate) fn take_first(numbers: &mut BTreeSet<usize>) -> Option<usize>
    ensures member { IfSome result (λ first. contains nat_cmp numbers.old first ≡ true) }
    ensures least { IfSome result (λ first. (k : ℕ) → k < first → contains nat_cmp numbers.old k ≡ false) }
    ensures rest { IfSome result (λ first. (k : ℕ) → contains nat_cmp numbers.new k ≡ (nat_lt first k && contains nat_cmp numbers.old k)) }
    ensures fewer { OnSome result (btree_set_len numbers.new < btree_set_len numbers.old) }
    ensures none { IfNone result ((k : ℕ) → contains nat_cmp numbers.old k ≡ false) }
{
    numbers.pop_first()
}
