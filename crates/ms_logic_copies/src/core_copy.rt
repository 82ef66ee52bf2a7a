ghost use Rattle.std.specs.Prelude.{◌≡◌, IfOk};

use crate::made::{both, heaped};
use ms_list::{Boxed, List, NoMemory, push};
use ms_logic_core::Core;
use std::alloc::Global;

/// An equal formula of its own.
#[cycle(copy_core)]
pub fn copy_core(alloc: Global, core: &Core) -> Result<Core, NoMemory>
    ensures { IfOk result (λ made. made ≡ core.now) }
{
    match core {
        Core::True => Ok(Core::True),
        Core::False => Ok(Core::False),
        Core::Basic(basic) => Ok(Core::Basic(*basic)),
        Core::Not(body) => Ok(Core::Not(heaped(alloc, copy_core(alloc, body.get()))?)),
        Core::And(operands) => Ok(Core::And(copy_all(alloc, operands.slice())?)),
        Core::Or(operands) => Ok(Core::Or(copy_all(alloc, operands.slice())?)),
        Core::Implies(left, right) => {
            let left = heaped(alloc, copy_core(alloc, left.get()));
            let right = heaped(alloc, copy_core(alloc, right.get()));
            let (left, right) = both(left, right)?;
            Ok(Core::Implies(left, right))
        }
        Core::Iff(left, right) => {
            let left = heaped(alloc, copy_core(alloc, left.get()));
            let right = heaped(alloc, copy_core(alloc, right.get()));
            let (left, right) = both(left, right)?;
            Ok(Core::Iff(left, right))
        }
        Core::Restrict(body) => Ok(Core::Restrict(heaped(alloc, copy_core(alloc, body.get()))?)),
        Core::Import(import, variables) => {
            Ok(Core::Import(*import, copy_variables(alloc, variables.slice())?))
        }
        Core::Bind(quant, order, variable, domain, body) => {
            let domain = copy_domain(alloc, domain);
            let body = heaped(alloc, copy_core(alloc, body.get()));
            let (domain, body) = both(domain, body)?;
            Ok(Core::Bind(*quant, *order, *variable, domain, body))
        }
    }
}

#[cycle(copy_core)]
fn copy_domain(alloc: Global, domain: &Option<Boxed<Core>>) -> Result<Option<Boxed<Core>>, NoMemory>
    ensures { IfOk result (λ made. made ≡ domain.now) }
{
    match domain {
        None => Ok(None),
        Some(core) => Ok(Some(heaped(alloc, copy_core(alloc, core.get()))?)),
    }
}

#[cycle(copy_core)]
fn copy_all(alloc: Global, operands: &[Core]) -> Result<List<Core>, NoMemory>
    ensures { IfOk result (λ made. made ≡ operands.now) }
{
    let mut made = List::new(alloc);
    for operand in operands {
        push(&mut made, copy_core(alloc, operand)?)?;
    }
    Ok(made)
}

fn copy_variables(alloc: Global, variables: &[u32]) -> Result<List<u32>, NoMemory>
    ensures { IfOk result (λ made. made ≡ variables.now) }
{
    let mut made = List::new(alloc);
    for variable in variables {
        push(&mut made, *variable)?;
    }
    Ok(made)
}
