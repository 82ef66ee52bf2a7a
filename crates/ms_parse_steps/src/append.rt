ghost use Rattle.std.specs.Prelude.{◌≡◌, IfOk, IfErr};
ghost use Rattle.ms_parse_grammar.specs.Tree.{and_expression, and_variable, and_part, restricted, unrestricted};
ghost use Rattle.ms_parse_grammar.specs.View.{expression_of, expressions_of, variables_of, parts_of};
ghost use Rattle.ms_parse_steps.specs.inner.Binders.{binder_of};
ghost use Rattle.ms_parse_steps.specs.declared.stop.Stop.TheVariants.{Memory};

use crate::lists::{push_expression, push_part, push_restricted, push_variable};
use crate::memory::with_room;
use crate::operand::{Binder, Bounds, Identifier, Operand, Operands, Parts};
use crate::stop::Stop;
use std::alloc::Global;

/// The expressions and one more.
pub fn with_expression(operands: Operands, operand: Operand) -> Result<Operands, Stop>
    ensures ok { IfOk result (λ made. expressions_of made.list ≡ and_expression (expressions_of operands.list) (expression_of operand.expr)) }
    ensures err { IfErr result (λ stop. stop ≡ Memory) }
{
    let height = operands.height.max(operand.height);
    let mut list = operands.list;
    push_expression(&mut list, operand.expr)?;
    Ok(Operands { list, height })
}

/// A quantifier with one variable more, without a restriction.
pub fn with_unrestricted(binder: Binder, variable: Identifier) -> Result<Binder, Stop>
    ensures ok { IfOk result (λ made. binder_of made ≡ (binder.at, binder.quant, binder.order, and_variable (variables_of binder.bounds.list) variable.at binder.order variable.name unrestricted)) }
    ensures err { IfErr result (λ stop. stop ≡ Memory) }
{
    let Bounds { list, height } = binder.bounds;
    let mut list = with_room(list)?;
    push_variable(&mut list, binder.order, variable, None)?;
    let bounds = Bounds { list, height };
    Ok(Binder { bounds, ..binder })
}

/// A quantifier with one variable more, with its restriction.
pub fn with_restricted(
    alloc: Global,
    binder: Binder,
    variable: Identifier,
    domain: Operand,
) -> Result<Binder, Stop>
    ensures ok { IfOk result (λ made. binder_of made ≡ (binder.at, binder.quant, binder.order, and_variable (variables_of binder.bounds.list) variable.at binder.order variable.name (restricted (expression_of domain.expr)))) }
    ensures err { IfErr result (λ stop. stop ≡ Memory) }
{
    let height = binder.bounds.height.max(domain.height);
    let mut list = with_room(binder.bounds.list)?;
    push_restricted(alloc, &mut list, binder.order, variable, domain.expr)?;
    let bounds = Bounds { list, height };
    Ok(Binder { bounds, ..binder })
}

/// The parts of a `let` and one more.
pub fn with_part(parts: Parts, variable: Identifier, value: Operand) -> Result<Parts, Stop>
    ensures ok { IfOk result (λ made. parts_of made.list ≡ and_part (parts_of parts.list) variable.at variable.name (expression_of value.expr)) }
    ensures err { IfErr result (λ stop. stop ≡ Memory) }
{
    let height = parts.height.max(value.height);
    let mut list = parts.list;
    push_part(&mut list, variable.at, variable.name, value.expr)?;
    Ok(Parts { list, height })
}
