//! What predicates and default restrictions become.

ghost use Rattle.ms_logic.specs.Tree.{unrestricted};
ghost use Rattle.ms_logic.specs.View.{argument_of, declaration_of, predicate_of};
ghost use Rattle.ms_names_rules.specs.inner.Binder.{predicate_with, restricted_variable};
ghost use Rattle.ms_names_rules.specs.Typed.{both, formula_in};
ghost use Rattle.std.specs.Option.{option_map};
ghost use Rattle.std.specs.Prelude.{◌≡◌, ◌∷◌, [], map, IfOk};

use crate::order::formula_in;
use ms_list::{List, NoMemory, push};
use ms_logic::{Arg, Order, Param, Predicate};
use std::alloc::Global;

/// A predicate by what its parameters and its body became.
#[inline(never)]
pub fn predicate(params: Option<Vec<Param>>, body: Option<Arg>) -> Option<Predicate>
    ensures { option_map predicate_of result
        ≡ both predicate_with (option_map (λ ps. map declaration_of ps.items) params) (formula_in (option_map argument_of body)) }
{
    let params = params?;
    let body = formula_in(body)?;
    Some(Predicate {
        params: List::from(params),
        body,
    })
}

/// A default restriction by what its body became: a predicate of one variable, which has no restriction of its own.
#[inline(never)]
pub fn default_predicate(
    alloc: Global,
    order: Order,
    x: u32,
    body: Option<Arg>,
) -> Result<Option<Predicate>, NoMemory>
    ensures { IfOk result (λ made. option_map predicate_of made
        ≡ option_map (predicate_with (restricted_variable x order unrestricted ∷ [])) (formula_in (option_map argument_of body))) }
{
    let Some(body) = formula_in(body) else {
        return Ok(None);
    };
    let mut params = List::new(alloc);
    push(
        &mut params,
        Param {
            order,
            variable: x,
            domain: None,
        },
    )?;
    Ok(Some(Predicate { params, body }))
}
