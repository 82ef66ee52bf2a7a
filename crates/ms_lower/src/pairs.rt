ghost use Rattle.ms_logic_core.specs.CoreForm.{core_form_of};
ghost use Rattle.ms_logic.specs.Tree as tree;
ghost use Rattle.ms_logic.specs.View.{set_term_of, term_of};
ghost use Rattle.ms_lower.specs.Callees.{spread_in};
ghost use Rattle.ms_lower.specs.inner.Defined.{below};
ghost use Rattle.ms_lower.specs.inner.Scope.{names_in};
ghost use Rattle.std.specs.Prelude.{◌≡◌, IfOk};

use crate::atoms::of_one;
use crate::defined::{Defined, over};
use crate::made::Made;
use crate::relations::{number_relation, relate, set_relation};
use crate::scope::Scope;
use crate::tables::Tables;
use crate::terms::{define_number, define_set};
use ms_list::{Boxed, NoMemory};
use ms_logic::{Rel, Term1, Term2};
use ms_logic_core::{Basic, Core};
use std::alloc::Global;

/// A formula over what two terms are, the first around the second.
fn over_two(alloc: Global, first: Defined, second: Defined, body: Boxed<Core>) -> Made
    ensures { IfOk result (λ core. core_form_of core ≡ below first (below second (core_form_of body))) }
{
    let body = over(alloc, second, body)?;
    over(alloc, first, body)
}

/// A relation of two terms for numbers.
#[inline(never)]
pub fn comparison(
    tables: &Tables,
    scope: &Scope,
    rel: Rel,
    sides: (&Term1, &Term1),
    free: u64,
) -> Made
    ensures { IfOk result (λ core. core_form_of core ≡ spread_in tables.now
        (tree.comparison rel (term_of sides.entry.0.now) (term_of sides.entry.1.now)) (names_in scope.now) free) }
{
    let first = define_number(tables, scope, sides.0, free)?;
    let second = define_number(tables, scope, sides.1, first.next)?;
    let relates = number_relation(tables.alloc, rel, first.number, second.number)?;
    over_two(tables.alloc, first, second, relates)
}

/// A relation of two terms for sets.
#[inline(never)]
pub fn set_comparison(
    tables: &Tables,
    scope: &Scope,
    rel: Rel,
    sides: (&Term2, &Term2),
    free: u64,
) -> Made
    ensures { IfOk result (λ core. core_form_of core ≡ spread_in tables.now
        (tree.set_comparison rel (set_term_of sides.entry.0.now) (set_term_of sides.entry.1.now)) (names_in scope.now) free) }
{
    let first = define_set(tables, scope, sides.0, free)?;
    let second = define_set(tables, scope, sides.1, first.next)?;
    let relates = set_relation(tables.alloc, rel, first.number, second.number)?;
    over_two(tables.alloc, first, second, relates)
}

/// `in` of a term for a number and a term for a set, or where it is not positive `notin`.
#[inline(never)]
pub fn membership(
    tables: &Tables,
    scope: &Scope,
    positive: bool,
    sides: (&Term1, &Term2),
    free: u64,
) -> Made
    ensures { IfOk result (λ core. core_form_of core ≡ spread_in tables.now
        (tree.membership positive (term_of sides.entry.0.now) (set_term_of sides.entry.1.now)) (names_in scope.now) free) }
{
    let first = define_number(tables, scope, sides.0, free)?;
    let second = define_set(tables, scope, sides.1, first.next)?;
    let member = Basic::Member(first.number, second.number);
    let relates = relate(tables.alloc, member, positive)?;
    over_two(tables.alloc, first, second, relates)
}

/// `empty` of a term for a set.
#[inline(never)]
pub fn emptiness(tables: &Tables, scope: &Scope, set: &Term2, free: u64) -> Made
    ensures { IfOk result (λ core. core_form_of core ≡ spread_in tables.now
        (tree.emptiness (set_term_of set.now)) (names_in scope.now) free) }
{
    let set = define_set(tables, scope, set, free)?;
    let relates = Basic::Bits(set.number, 0);
    of_one(tables.alloc, set, relates)
}
