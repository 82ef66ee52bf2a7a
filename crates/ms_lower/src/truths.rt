ghost use Rattle.ms_logic_core.specs.Spread.{Names, truth_value, variable_of_form};
ghost use Rattle.ms_logic_core.specs.CoreForm.{CoreForm};
ghost use Rattle.ms_logic.specs.View.{declaration_of, formula_of};
ghost use Rattle.ms_logic.specs.declared.mode.Order.TheVariants.{Zero};
ghost use Rattle.ms_lower.specs.inner.Given.{IsGiven};
ghost use Rattle.ms_lower.specs.Numbering.{numbering_of};
ghost use Rattle.ms_lower.specs.inner.Scope.{all_named, default_over, names_in};
ghost use Rattle.std.specs.Prelude.{◌≡◌, ℕ, map, IfOk, Some};

use crate::defined::Defined;
use crate::scope::{Named, Scope};
use crate::tables::{Tables, number};
use ms_list::{List, NoMemory, push};
use ms_logic::{Formula, Order, Param};
use std::alloc::Global;

/// The variable that a formula is, if it is one.
pub fn truth_variable(source: &Formula) -> Option<u32>
    ensures { result ≡ variable_of_form (formula_of source.now) }
{
    match source {
        Formula::Var(variable) => Some(*variable),
        Formula::True => None,
        Formula::False => None,
        Formula::Not(_) => None,
        Formula::And(_) => None,
        Formula::Or(_) => None,
        Formula::Implies(_, _) => None,
        Formula::Iff(_, _) => None,
        Formula::Compare(_, _, _) => None,
        Formula::CompareSets(_, _, _) => None,
        Formula::Member(_, _, _) => None,
        Formula::IsEmpty(_) => None,
        Formula::Bind(_, _, _, _, _) => None,
        Formula::Let(_, _) => None,
        Formula::Call(_, _) => None,
        Formula::Restrict(_) => None,
        Formula::Import(_) => None,
        Formula::Export(_, _) => None,
        Formula::Domain(_, _) => None,
    }
}

/// A truth value that is a variable in scope.
pub fn known_truth(tables: &Tables, name: u64, free: u64) -> Result<Defined, NoMemory>
    ensures { (F : ℕ → CoreForm) → IfOk result (IsGiven (numbering_of tables.now) Zero (truth_value (Some name) F) free) }
{
    Ok(Defined {
        order: Order::Zero,
        name,
        number: number(tables, Order::Zero, name)?,
        next: free,
        definition: None,
    })
}

/// The names inside a default restriction at a variable, which stands for each of its parameters.
pub fn default_names(
    alloc: Global,
    scope: &Scope,
    params: &[Param],
    variable: u32,
) -> Result<List<Named>, NoMemory>
    ensures { IfOk result (λ named. (base : Names) →
        all_named named base ≡ default_over (map declaration_of params.now) variable (names_in scope.now) base) }
{
    let mut named = List::new(alloc);
    for param in params {
        let name = scope.name_of(param.order, variable);
        let one = Named {
            order: param.order,
            variable: param.variable,
            name,
        };
        push(&mut named, one)?;
    }
    Ok(named)
}
