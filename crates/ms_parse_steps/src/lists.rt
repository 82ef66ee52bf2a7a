ghost use Rattle.std.specs.Prelude.{◌≡◌, IfErr, OnOk};
ghost use Rattle.ms_parse_grammar.specs.Tree.{and_expression, and_variable, and_part, restricted};
ghost use Rattle.ms_parse_grammar.specs.View.{expression_of, expressions_of, variables_of, parts_of, domain_of, variable_of, part_of};
ghost use Rattle.ms_parse_steps.specs.declared.stop.Stop.TheVariants.{Memory};

use crate::memory::{boxed, push};
use crate::operand::Identifier;
use crate::stop::Stop;
use ms_list::{At, Boxed, List, Name};
use ms_logic::{Bound, Expr, LetPart, Order};
use std::alloc::Global;

pub fn push_expression(list: &mut List<Expr>, expr: Expr) -> Result<(), Stop>
    ensures ok { OnOk result (expressions_of list.new ≡ and_expression (expressions_of list.old) (expression_of expr)) }
    ensures err { IfErr result (λ stop. stop ≡ Memory) }
{
    push(list, expr)
}

fn bound_of(order: Order, variable: Identifier, domain: Option<Boxed<Expr>>) -> Bound
    ensures { variable_of result ≡ record { at = variable.at; order = order; name = variable.name; domain = domain_of domain } }
{
    Bound {
        at: variable.at,
        order,
        name: variable.name,
        domain,
    }
}

fn part(at: At, name: Name, value: Expr) -> LetPart
    ensures { part_of result ≡ record { at = at; name = name; value = expression_of value } }
{
    LetPart { at, name, value }
}

pub fn push_variable(
    list: &mut List<Bound>,
    order: Order,
    variable: Identifier,
    domain: Option<Boxed<Expr>>,
) -> Result<(), Stop>
    ensures ok { OnOk result (variables_of list.new ≡ and_variable (variables_of list.old) variable.at order variable.name (domain_of domain)) }
    ensures err { IfErr result (λ stop. stop ≡ Memory) }
{
    let one = bound_of(order, variable, domain);
    push(list, one)
}

pub fn push_part(list: &mut List<LetPart>, at: At, name: Name, value: Expr) -> Result<(), Stop>
    ensures ok { OnOk result (parts_of list.new ≡ and_part (parts_of list.old) at name (expression_of value)) }
    ensures err { IfErr result (λ stop. stop ≡ Memory) }
{
    let one = part(at, name, value);
    push(list, one)
}

pub fn push_restricted(
    alloc: Global,
    list: &mut List<Bound>,
    order: Order,
    variable: Identifier,
    domain: Expr,
) -> Result<(), Stop>
    ensures ok { OnOk result (variables_of list.new ≡ and_variable (variables_of list.old) variable.at order variable.name (restricted (expression_of domain))) }
    ensures err { IfErr result (λ stop. stop ≡ Memory) }
{
    let domain = boxed(alloc, domain)?;
    push_variable(list, order, variable, Some(domain))
}
