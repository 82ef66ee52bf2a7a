ghost use Rattle.ms_logic.specs.View.{argument_of, declaration_of};
ghost use Rattle.ms_names_rules.specs.inner.Binder.{restricted_variable, restriction_in};
ghost use Rattle.ms_parse_grammar.specs.Tree.{unrestricted};
ghost use Rattle.ms_names_rules.specs.Typed.{both, typed_restriction};
ghost use Rattle.std.specs.Option.{option_map};
ghost use Rattle.std.specs.Prelude.{◌≡◌, ◌∷◌, ◌++◌, ◌+◌, [], map, IfOk};

use ms_list::NoMemory;
use ms_logic::{Arg, Order, Param};
use ms_names_scopes::Checker;
use ms_names_typing::{more_params, restricted};

/// The number behind a number. Where numbers run out, memory has long run out.
pub(crate) fn next_number(x: u32) -> Result<u32, NoMemory>
    ensures { IfOk result (λ next. next ≡ x + 1) }
{
    x.checked_add(1).ok_or(NoMemory)
}

/// A variable without a restriction of its own, behind those before it.
#[inline(never)]
pub(crate) fn with_unrestricted(
    checker: &Checker,
    made: Option<Vec<Param>>,
    x: u32,
    order: Order,
    takes_defaults: bool,
) -> Result<Option<Vec<Param>>, NoMemory>
    ensures { IfOk result (λ more. option_map (λ ps. map declaration_of ps.items) more
        ≡ both (λ front v. front ++ v ∷ []) (option_map (λ ps. map declaration_of ps.items) made)
        (option_map (restricted_variable x order) (restriction_in takes_defaults checker.now.scope checker.now.before order x unrestricted))) }
{
    let param = checker.unrestricted(x, order, takes_defaults);
    more_params(made, Some(param))
}

/// A variable behind those before it, by what its restriction became.
#[inline(never)]
pub(crate) fn with_restricted(
    made: Option<Vec<Param>>,
    x: u32,
    order: Order,
    value: Option<Arg>,
) -> Result<Option<Vec<Param>>, NoMemory>
    ensures { IfOk result (λ more. option_map (λ ps. map declaration_of ps.items) more
        ≡ both (λ front v. front ++ v ∷ []) (option_map (λ ps. map declaration_of ps.items) made)
        (option_map (restricted_variable x order) (typed_restriction (option_map argument_of value)))) }
{
    more_params(made, restricted(x, order, value))
}
