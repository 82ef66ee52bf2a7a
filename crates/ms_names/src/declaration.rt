ghost use Rattle.ms_logic.specs.View.{predicate_of};
ghost use Rattle.ms_names_rules.specs.Before.{after, after_bounds, with_names};
ghost use Rattle.ms_names_rules.specs.Declarations.{occurrences_in_default, occurrences_in_predicate};
ghost use Rattle.ms_names_rules.specs.Scope.{count_of_bounds};
ghost use Rattle.ms_names_rules.specs.TypedSource.{typed_default, typed_predicate};
ghost use Rattle.ms_parse_grammar.specs.View.{variables_of, expression_of};
ghost use Rattle.ms_names_scopes.specs.inner.Found.{passed};
ghost use Rattle.std.specs.Option.{option_map};
ghost use Rattle.std.specs.Prelude.{◌≡◌, IfOk, OnOk};

use crate::expression::{expression, variables};
use ms_list::{Name, NoMemory};
use ms_logic::{Bound, Expr, Order, Predicate};
use ms_names_rules::{Meaning, Wanted};
use ms_names_scopes::Checker;
use ms_names_typing::{default_predicate, predicate};

/// The parameters and the body of a predicate or a macro, in which no export may stand.
pub(crate) fn predicate_parts(
    checker: &mut Checker,
    bounds: &[Bound],
    body: &Expr,
) -> Result<Option<Predicate>, NoMemory>
    ensures state { OnOk result (checker.new ≡ passed checker.old
        (occurrences_in_predicate checker.old.scope checker.old.before (variables_of bounds.now) (expression_of body.now))
        (after (after_bounds (with_names checker.old.before (count_of_bounds (variables_of bounds.now))) (variables_of bounds.now)) (expression_of body.now))) }
    ensures value { IfOk result (λ made. option_map predicate_of made
        ≡ typed_predicate checker.old.scope checker.old.before (variables_of bounds.now) (expression_of body.now)) }
{
    let first = checker.number_names(bounds.len())?;
    let allowed = checker.forbid_exports();
    let params = variables(checker, first, false, bounds)?;
    let body = expression(checker, Wanted::Exactly(Order::Zero), body)?;
    checker.unbind(bounds.len());
    checker.allow_exports(allowed);
    Ok(predicate(params, body))
}

/// The body of a default restriction with its parameter, in which no export may stand.
pub(crate) fn default_parts(
    checker: &mut Checker,
    order: Order,
    name: &Name,
    body: &Expr,
) -> Result<Option<Predicate>, NoMemory>
    ensures state { OnOk result (checker.new ≡ passed checker.old
        (occurrences_in_default checker.old.scope checker.old.before order name.now (expression_of body.now))
        (after (with_names checker.old.before 1) (expression_of body.now))) }
    ensures value { IfOk result (λ made. option_map predicate_of made
        ≡ typed_default checker.old.scope checker.old.before order name.now (expression_of body.now)) }
{
    let x = checker.number_names(1)?;
    let allowed = checker.forbid_exports();
    checker.bind(name, Meaning::Variable(x, order))?;
    let body = expression(checker, Wanted::Exactly(Order::Zero), body)?;
    checker.unbind(1);
    checker.allow_exports(allowed);
    default_predicate(checker.alloc, order, x, body)
}
