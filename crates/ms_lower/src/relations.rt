ghost use Rattle.ms_logic_core.specs.CoreForm.{CoreForm, basic, core_form_of};
ghost use Rattle.ms_logic_core.specs.Spread.{conjunction_of, is_member_or_not, numbers_relate, sets_relate, spread_under};
ghost use Rattle.ms_logic_core.specs.CoreForm.{equivalence, falsity, restrict, truth};
ghost use Rattle.ms_logic.specs.Tree as tree;
ghost use Rattle.ms_lower.specs.Callees.{basic_or_not, callees_in, disjunction_over};
ghost use Rattle.ms_lower.specs.Numbering.{numbering_of, renumbered, variable_of_pair, variables_of_use};
ghost use Rattle.ms_lower.specs.inner.Scope.{names_in};
ghost use Rattle.std.specs.Prelude.{◌≡◌, map, slice_get, if◌then◌else◌, IfOk};

use crate::cores::{not, relation};
use crate::made::Made;
use crate::scope::Scope;
use crate::tables::{Tables, number};
use ms_list::{Boxed, List, NoMemory, on_heap, push};
use ms_logic::{ImportUse, MapPair, Order, Rel};
use ms_logic_core::{Basic, Core};
use std::alloc::Global;

/// A basic relation, or where it is not positive its negation.
pub fn relate(alloc: Global, relates: Basic, positive: bool) -> Made
    ensures { IfOk result (λ core. core_form_of core ≡ basic_or_not positive relates) }
{
    let core = relation(alloc, relates)?;
    if positive { Ok(core) } else { not(alloc, core) }
}

/// A relation between two numbers that are variables.
pub fn number_relation(alloc: Global, rel: Rel, x: u32, y: u32) -> Made
    ensures { IfOk result (λ core. core_form_of core ≡ numbers_relate rel x y) }
{
    match rel {
        Rel::Equal => relate(alloc, Basic::Plus(x, y, 0), true),
        Rel::Differs => relate(alloc, Basic::Plus(x, y, 0), false),
        Rel::Less => relate(alloc, Basic::Less(x, y), true),
        Rel::AtLeast => relate(alloc, Basic::Less(x, y), false),
        Rel::Greater => relate(alloc, Basic::Less(y, x), true),
        Rel::AtMost => relate(alloc, Basic::Less(y, x), false),
        Rel::Member | Rel::NotMember | Rel::Sub => constant(alloc, false),
    }
}

/// A relation between two sets that are variables.
pub fn set_relation(alloc: Global, rel: Rel, s: u32, t: u32) -> Made
    ensures { IfOk result (λ core. core_form_of core ≡ sets_relate rel s t) }
{
    match rel {
        Rel::Equal => relate(alloc, Basic::Union(s, t, t), true),
        Rel::Differs => relate(alloc, Basic::Union(s, t, t), false),
        Rel::Sub => relate(alloc, Basic::Sub(s, t), true),
        _ => constant(alloc, false),
    }
}

/// `true` or `false`
pub fn constant(alloc: Global, holds: bool) -> Made
    ensures { IfOk result (λ core. core_form_of core ≡ (if holds then truth else falsity)) }
{
    let core = if holds { Core::True } else { Core::False };
    Ok(on_heap(alloc, core)?)
}

/// `restrict`
pub fn restricted(alloc: Global, body: Boxed<Core>) -> Made
    ensures { IfOk result (λ core. core_form_of core ≡ restrict (core_form_of body)) }
{
    let core = Core::Restrict(body);
    Ok(on_heap(alloc, core)?)
}

/// `<=>`
pub fn same(alloc: Global, left: Boxed<Core>, right: Boxed<Core>) -> Made
    ensures { IfOk result (λ core. core_form_of core ≡ equivalence (core_form_of left) (core_form_of right)) }
{
    let core = Core::Iff(left, right);
    Ok(on_heap(alloc, core)?)
}

/// The disjunction of a list.
pub fn disjunction(alloc: Global, operands: List<Core>) -> Made
    ensures { IfOk result (λ core. core_form_of core ≡ disjunction_over (map core_form_of operands)) }
{
    let core = Core::Or(operands);
    Ok(on_heap(alloc, core)?)
}

/// The conjunction of a list: `true` where it is empty, and one formula alone is itself.
pub fn conjunction(alloc: Global, operands: List<Core>) -> Made
    ensures { IfOk result (λ core. core_form_of core ≡ conjunction_of (map core_form_of operands)) }
{
    let count = operands.len();
    if count == 0 {
        return constant(alloc, true);
    }
    if count == 1 {
        let mut only = operands.into_vec();
        return match only.pop() {
            None => constant(alloc, true),
            Some(operand) => Ok(on_heap(alloc, operand)?),
        };
    }
    let core = Core::And(operands);
    Ok(on_heap(alloc, core)?)
}

fn pair_numbers(tables: &Tables, scope: &Scope, pairs: &[MapPair]) -> Result<List<u32>, NoMemory>
    ensures { IfOk result (λ numbers. numbers
        ≡ map (λ pair. (numbering_of tables.now).number pair.order (names_in scope.now pair.order pair.variable)) pairs.now) }
{
    let mut numbers = List::new(tables.alloc);
    for pair in pairs {
        let name = scope.name_of(pair.order, pair.variable);
        push(&mut numbers, number(tables, pair.order, name)?)?;
    }
    Ok(numbers)
}

// The pairs of an import, of which there are none where no import has the number.
fn pairs_of(imports: &[ImportUse], import: u32) -> &[MapPair]
    ensures { map variable_of_pair result.now ≡ variables_of_use (slice_get imports.now import) }
{
    match imports.get(import as usize) {
        None => &[],
        Some(used) => used.pairs.slice(),
    }
}

/// An import, with the variables that stand for those of its file.
pub fn import(tables: &Tables, scope: &Scope, import: u32) -> Made
    ensures { IfOk result (λ core. core_form_of core ≡ renumbered (numbering_of tables.now)
        (spread_under (callees_in tables.now) (tree.imported import) (names_in scope.now) 0)) }
{
    let numbers = pair_numbers(tables, scope, pairs_of(tables.imports, import))?;
    let core = Core::Import(import, numbers);
    Ok(on_heap(tables.alloc, core)?)
}
