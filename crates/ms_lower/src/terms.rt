ghost use Rattle.ms_logic_core.specs.CoreForm.{core_form_of};
ghost use Rattle.ms_logic_core.specs.Spread.{TermSpread, is_minus, is_only_member, set_of_elements, spread_elements, spread_number, spread_set};
ghost use Rattle.ms_logic.specs.View.{set_term_of, term_of, terms};
ghost use Rattle.ms_logic.specs.declared.mode.Order.TheVariants.{One, Two};
ghost use Rattle.ms_lower.specs.inner.Defined.{IsDefined};
ghost use Rattle.ms_lower.specs.Numbering.{numbering_of, renumbered};
ghost use Rattle.ms_lower.specs.inner.Scope.{names_in};
ghost use Rattle.std.specs.Prelude.{◌≡◌, ◌≤◌, ◌+◌, ℕ, length, map, IfOk};

use crate::atoms::{known, minus, of_one, of_two, only_member, whole};
use crate::cores::relation;
use crate::defined::{Defined, fresh, over};
use crate::made::Made;
use crate::scope::Scope;
use crate::tables::{Tables, number};
use ms_list::{Boxed, NoMemory};
use ms_logic::{Order, Term1, Term2};
use ms_logic_core::{Basic, Core};

// The restriction to be less by a number than a term, for the variable with the number `own`.
fn less_by(tables: &Tables, term: Defined, own: u32, by: u64) -> Made
    ensures { (T : TermSpread) → (free name : ℕ) → IsDefined (numbering_of tables.now) One T free term →
        own ≡ (numbering_of tables.now).number One name →
        IfOk result (λ core. core_form_of core ≡ renumbered (numbering_of tables.now) (T free (is_minus name by))) }
{
    let bound = number(tables, Order::One, term.next)?;
    let body = minus(tables.alloc, own, by, bound, term.number)?;
    over(tables.alloc, term, body)
}

/// The variable that a term is. From a number on all are free in the spread.
#[cycle(terms)]
pub fn define_number(
    tables: &Tables,
    scope: &Scope,
    term: &Term1,
    free: u64,
) -> Result<Defined, NoMemory>
    ensures { IfOk result (IsDefined (numbering_of tables.now) One
        (spread_number (term_of term.now) (names_in scope.now)) free) }
{
    let own = number(tables, Order::One, free)?;
    match term {
        Term1::Var(variable) => known(
            tables,
            Order::One,
            scope.name_of(Order::One, *variable),
            free,
        ),
        Term1::Number(n) => {
            let core = relation(tables.alloc, Basic::Number(own, *n))?;
            Ok(fresh(Order::One, free, own, core))
        }
        Term1::Plus(inner, n) => {
            let inner = define_number(tables, scope, inner.get(), free + 1)?;
            let relates = Basic::Plus(own, inner.number, *n);
            let core = of_one(tables.alloc, inner, relates)?;
            Ok(fresh(Order::One, free, own, core))
        }
        Term1::Minus(inner, n) => {
            let inner = define_number(tables, scope, inner.get(), free + 1)?;
            let core = less_by(tables, inner, own, *n)?;
            Ok(fresh(Order::One, free, own, core))
        }
        Term1::Min(set) => {
            let set = define_set(tables, scope, set.get(), free + 1)?;
            let relates = Basic::Min(own, set.number);
            let core = of_one(tables.alloc, set, relates)?;
            Ok(fresh(Order::One, free, own, core))
        }
        Term1::Max(set) => {
            let set = define_set(tables, scope, set.get(), free + 1)?;
            let relates = Basic::Max(own, set.number);
            let core = of_one(tables.alloc, set, relates)?;
            Ok(fresh(Order::One, free, own, core))
        }
    }
}

/// The variable that a term for a set is, likewise.
#[cycle(terms)]
pub fn define_set(
    tables: &Tables,
    scope: &Scope,
    term: &Term2,
    free: u64,
) -> Result<Defined, NoMemory>
    ensures { IfOk result (IsDefined (numbering_of tables.now) Two
        (spread_set (set_term_of term.now) (names_in scope.now)) free) }
{
    let own = number(tables, Order::Two, free)?;
    match term {
        Term2::Var(variable) => known(
            tables,
            Order::Two,
            scope.name_of(Order::Two, *variable),
            free,
        ),
        Term2::EmptySet => {
            let core = relation(tables.alloc, Basic::Bits(own, 0))?;
            Ok(fresh(Order::Two, free, own, core))
        }
        Term2::Whole => {
            let bound = number(tables, Order::One, free + 1)?;
            let core = whole(tables.alloc, bound, own)?;
            Ok(fresh(Order::Two, free, own, core))
        }
        Term2::Literal(elements) => { Ok(define_elements(tables, scope, elements.slice(), free)?) }
        Term2::Pconst(n) => {
            let core = relation(tables.alloc, Basic::Bits(own, *n))?;
            Ok(fresh(Order::Two, free, own, core))
        }
        Term2::Union(left, right) => {
            let left = define_set(tables, scope, left.get(), free + 1)?;
            let right = define_set(tables, scope, right.get(), left.next)?;
            let relates = Basic::Union(own, left.number, right.number);
            let core = of_two(tables.alloc, left, right, relates)?;
            Ok(fresh(Order::Two, free, own, core))
        }
        Term2::Inter(left, right) => {
            let left = define_set(tables, scope, left.get(), free + 1)?;
            let right = define_set(tables, scope, right.get(), left.next)?;
            let relates = Basic::Inter(own, left.number, right.number);
            let core = of_two(tables.alloc, left, right, relates)?;
            Ok(fresh(Order::Two, free, own, core))
        }
        Term2::Minus(left, right) => {
            let left = define_set(tables, scope, left.get(), free + 1)?;
            let right = define_set(tables, scope, right.get(), left.next)?;
            let relates = Basic::Diff(own, left.number, right.number);
            let core = of_two(tables.alloc, left, right, relates)?;
            Ok(fresh(Order::Two, free, own, core))
        }
        Term2::Up(set, n) => {
            let set = define_set(tables, scope, set.get(), free + 1)?;
            let relates = Basic::Up(own, set.number, *n);
            let core = of_one(tables.alloc, set, relates)?;
            Ok(fresh(Order::Two, free, own, core))
        }
        Term2::Down(set, n) => {
            let set = define_set(tables, scope, set.get(), free + 1)?;
            let relates = Basic::Down(own, set.number, *n);
            let core = of_one(tables.alloc, set, relates)?;
            Ok(fresh(Order::Two, free, own, core))
        }
    }
}

// The restriction to be the set with one term, for the variable with the number `own`.
fn only(tables: &Tables, term: Defined, own: u32) -> Made
    ensures { (T : TermSpread) → (free name : ℕ) → IsDefined (numbering_of tables.now) One T free term →
        own ≡ (numbering_of tables.now).number Two name →
        IfOk result (λ core. core_form_of core ≡ renumbered (numbering_of tables.now) (T free (is_only_member name))) }
{
    let bound = number(tables, Order::One, term.next)?;
    let body = only_member(tables.alloc, own, bound, term.number)?;
    over(tables.alloc, term, body)
}

// The variable that the set of some elements is: where there is more than one, the union of the sets of both halves.
#[cycle(terms)]
fn define_elements(
    tables: &Tables,
    scope: &Scope,
    elements: &[Term1],
    free: u64,
) -> Result<Defined, NoMemory>
    ensures { (rounds : ℕ) → length elements.now ≤ rounds → IfOk result (IsDefined (numbering_of tables.now) Two
        (set_of_elements rounds (spread_elements (terms (map term_of elements.now)) (names_in scope.now))) free) }
{
    let own = number(tables, Order::Two, free)?;
    if elements.len() == 0 {
        let core = relation(tables.alloc, Basic::Bits(own, 0))?;
        return Ok(fresh(Order::Two, free, own, core));
    }
    if elements.len() == 1 {
        let element = define_number(tables, scope, &elements[0], free + 1)?;
        let core = only(tables, element, own)?;
        return Ok(fresh(Order::Two, free, own, core));
    }
    let half = elements.len() - elements.len() / 2;
    let left = define_elements(tables, scope, &elements[..half], free + 1)?;
    let right = define_elements(tables, scope, &elements[half..], left.next)?;
    let relates = Basic::Union(own, left.number, right.number);
    let core = of_two(tables.alloc, left, right, relates)?;
    Ok(fresh(Order::Two, free, own, core))
}
