ghost use Rattle.ms_logic_core.specs.Size.{extent_under, extents_of, extents_of_restriction, extents_of_restrictions};
ghost use Rattle.ms_logic.specs.View.{declaration_of, formula_of, predicate_of, restriction};
ghost use Rattle.ms_lower.specs.Counted.{counted, deepest};
ghost use Rattle.ms_lower.specs.inner.Extents.{AreExtents, HasEntries, called_by, known_extents};
ghost use Rattle.std.specs.Option.{option_map};
ghost use Rattle.std.specs.Prelude.{◌≡◌, ◌∷◌, [], ◌++◌, ◌≤◌, map, IfOk};

use crate::called::{Called, Extents};
use crate::counted::{Counted, DEEPEST, NO_PARTS, both};
use crate::extents::count_formula;
use ms_list::{List, NoMemory, push};
use ms_logic::{Formula, Param, Predicate};
use std::alloc::Global;

/// The size and the depth of the restriction of a parameter or a global, if there is one.
pub fn count_domain(known: &Extents, domain: &Option<Formula>) -> Option<Counted>
    requires { AreExtents known.now }
    ensures { result ≡ counted deepest
        (extents_of_restriction (known_extents known.now) (restriction (option_map formula_of domain.now))) }
{
    match domain {
        None => Some(NO_PARTS),
        Some(formula) => count_formula(known, formula, DEEPEST),
    }
}

fn count_params(known: &Extents, params: &[Param]) -> Option<Counted>
    requires { AreExtents known.now }
    ensures { result ≡ counted deepest
        (extents_of_restrictions (known_extents known.now) (map declaration_of params.now)) }
{
    let mut counted = Some(NO_PARTS);
    for param in params {
        let one = count_domain(known, &param.domain)?;
        counted = both(counted, Some(one));
    }
    counted
}

fn count_predicate(known: &Extents, predicate: &Predicate) -> Called
    requires { AreExtents known.now }
    ensures { result ≡ called_by (known_extents known.now) (predicate_of predicate.now) }
{
    let params = count_params(known, predicate.params.slice());
    let body = count_formula(known, &predicate.body, DEEPEST);
    Called {
        called: both(params, body),
        default: body,
    }
}

/// What counts where each of the predicates is called, each of which calls those before it alone.
pub fn count_predicates(alloc: Global, predicates: &[Predicate]) -> Result<List<Called>, NoMemory>
    ensures { IfOk result (λ called. HasEntries (extents_of (map predicate_of predicates.now)) called) }
{
    let mut called = List::new(alloc);
    for i in 0..predicates.len() {
        let known = Extents {
            predicates: &predicates[..i],
            called: called.slice(),
        };
        let entry = count_predicate(&known, &predicates[i]);
        push(&mut called, entry)?;
    }
    Ok(called)
}
