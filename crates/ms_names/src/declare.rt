ghost use Rattle.ms_logic.specs.View.{declaration_of, formula_of, predicate_of};
ghost use Rattle.ms_names_rules.specs.inner.Binder.{restricted_variables};
ghost use Rattle.ms_parse_grammar.specs.Tree.{constant, default_restriction, formula, predicate, variables};
ghost use Rattle.ms_names_rules.specs.Typed.{formula_in, typed};
ghost use Rattle.ms_names_rules.specs.TypedSource.{typed_default, typed_predicate};
ghost use Rattle.ms_parse_grammar.specs.View.{variables_of, expression_of};
ghost use Rattle.ms_names_scopes.specs.declared.taken.Taken.{Taken};
ghost use Rattle.ms_names_scopes.specs.inner.Declaration.{known_at, told};
ghost use Rattle.std.specs.Option.{option_map};
ghost use Rattle.std.specs.Prelude.{◌≡◌, [], ℕ, Bool, true, map, IfOk, OnOk};

use crate::declaration::{default_parts, predicate_parts};
use crate::expression::{expression, variables};
use ms_list::{At, Name, NoMemory};
use ms_logic::{Bound, Expr, Formula, Order, Param, PlacedInt, Predicate};
use ms_names_rules::{Meaning, Wanted};
use ms_names_scopes::Checker;
use ms_names_typing::formula_in;

/// A formula, of a declaration or of a goal.
pub(crate) fn declare_formula(checker: &mut Checker, e: &Expr) -> Result<Option<Formula>, NoMemory>
    ensures state { OnOk result ((count : ℕ) (taken : Taken)
        → checker.new ≡ told checker.old (known_at checker.old count taken) (formula (expression_of e.now)) checker.new.reads) }
    ensures value { IfOk result (λ made. option_map formula_of made ≡ formula_in (typed checker.old.scope checker.old.before (expression_of e.now))) }
{
    let value = expression(checker, Wanted::Exactly(Order::Zero), e)?;
    Ok(formula_in(value))
}

/// Globals, whose numbers go on from the first.
pub(crate) fn declare_globals(
    checker: &mut Checker,
    first: u32,
    bounds: &[Bound],
) -> Result<Option<Vec<Param>>, NoMemory>
    ensures state { OnOk result ((taken : Taken)
        → checker.new ≡ told checker.old (known_at checker.old first taken) (variables (variables_of bounds.now)) checker.new.reads) }
    ensures value { IfOk result (λ made. option_map (λ ps. map declaration_of ps.items) made
        ≡ restricted_variables true checker.old.scope first checker.old.before (variables_of bounds.now)) }
{
    checker.check_globals(bounds)?;
    let made = variables(checker, first, true, bounds)?;
    Ok(made)
}

/// A constant.
pub(crate) fn declare_constant(
    checker: &mut Checker,
    at: At,
    name: &Name,
    ints: &[PlacedInt],
) -> Result<(), NoMemory>
    ensures { OnOk result ((count : ℕ) (taken : Taken)
        → checker.new ≡ told checker.old (known_at checker.old count taken) (constant at name.now ints.now) checker.new.reads) }
{
    let value = checker.constant(at, name, ints)?;
    checker.bind(name, Meaning::Constant(value))?;
    Ok(())
}

/// A predicate or a macro, whose name is declared after its body.
pub(crate) fn declare_predicate(
    checker: &mut Checker,
    at: At,
    name: &Name,
    bounds: &[Bound],
    body: &Expr,
) -> Result<Option<Predicate>, NoMemory>
    requires { checker.old.reads ≡ [] }
    ensures state { OnOk result ((count : ℕ) (taken : Taken) (is_pred : Bool)
        → checker.new ≡ told checker.old (known_at checker.old count taken)
        (predicate is_pred at name.now (variables_of bounds.now) (expression_of body.now)) checker.new.reads) }
    ensures value { IfOk result (λ made. option_map predicate_of made
        ≡ typed_predicate checker.old.scope checker.old.before (variables_of bounds.now) (expression_of body.now)) }
{
    checker.check_declared(at, name)?;
    checker.check_bounds(bounds)?;
    let made = predicate_parts(checker, bounds, body)?;
    checker.name_predicate(name, bounds)?;
    Ok(made)
}

/// A default restriction, which holds after it.
pub(crate) fn declare_default(
    checker: &mut Checker,
    order: Order,
    name: &Name,
    body: &Expr,
) -> Result<Option<Predicate>, NoMemory>
    requires { checker.old.reads ≡ [] }
    ensures state { OnOk result ((count : ℕ) (taken : Taken)
        → checker.new ≡ told checker.old (known_at checker.old count taken) (default_restriction order name.now (expression_of body.now)) checker.new.reads) }
    ensures value { IfOk result (λ made. option_map predicate_of made
        ≡ typed_default checker.old.scope checker.old.before order name.now (expression_of body.now)) }
{
    let made = default_parts(checker, order, name, body)?;
    let number = checker.note_predicate()?;
    checker.set_default(order, number);
    Ok(made)
}
