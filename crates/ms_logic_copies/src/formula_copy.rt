ghost use Rattle.std.specs.Prelude.{◌≡◌, IfOk};

use crate::made::{both, heaped};
use crate::term_copy::{copy_number, copy_set};
use ms_list::{Boxed, List, NoMemory, push};
use ms_logic::{Arg, Binding, Formula};
use std::alloc::Global;

/// An equal formula of its own.
#[cycle(copy_formula)]
pub fn copy_formula(alloc: Global, formula: &Formula) -> Result<Formula, NoMemory>
    ensures { IfOk result (λ made. made ≡ formula.now) }
{
    match formula {
        Formula::True => Ok(Formula::True),
        Formula::False => Ok(Formula::False),
        Formula::Var(variable) => Ok(Formula::Var(*variable)),
        Formula::Not(body) => Ok(Formula::Not(heaped(alloc, copy_formula(alloc, body.get()))?)),
        Formula::And(operands) => Ok(Formula::And(copy_all(alloc, operands.slice())?)),
        Formula::Or(operands) => Ok(Formula::Or(copy_all(alloc, operands.slice())?)),
        Formula::Implies(left, right) => {
            let left = heaped(alloc, copy_formula(alloc, left.get()));
            let right = heaped(alloc, copy_formula(alloc, right.get()));
            let (left, right) = both(left, right)?;
            Ok(Formula::Implies(left, right))
        }
        Formula::Iff(left, right) => {
            let left = heaped(alloc, copy_formula(alloc, left.get()));
            let right = heaped(alloc, copy_formula(alloc, right.get()));
            let (left, right) = both(left, right)?;
            Ok(Formula::Iff(left, right))
        }
        Formula::Compare(rel, left, right) => {
            let (left, right) = both(copy_number(alloc, left), copy_number(alloc, right))?;
            Ok(Formula::Compare(*rel, left, right))
        }
        Formula::CompareSets(rel, left, right) => {
            let (left, right) = both(copy_set(alloc, left), copy_set(alloc, right))?;
            Ok(Formula::CompareSets(*rel, left, right))
        }
        Formula::Member(is_in, number, set) => {
            let (number, set) = both(copy_number(alloc, number), copy_set(alloc, set))?;
            Ok(Formula::Member(*is_in, number, set))
        }
        Formula::IsEmpty(set) => Ok(Formula::IsEmpty(copy_set(alloc, set)?)),
        Formula::Bind(quant, order, variable, domain, body) => {
            let domain = copy_domain(alloc, domain);
            let body = heaped(alloc, copy_formula(alloc, body.get()));
            let (domain, body) = both(domain, body)?;
            Ok(Formula::Bind(*quant, *order, *variable, domain, body))
        }
        Formula::Let(bindings, body) => {
            let bindings = copy_bindings(alloc, bindings.slice());
            let body = heaped(alloc, copy_formula(alloc, body.get()));
            let (bindings, body) = both(bindings, body)?;
            Ok(Formula::Let(bindings, body))
        }
        Formula::Call(predicate, arguments) => {
            Ok(Formula::Call(*predicate, copy_arguments(alloc, arguments.slice())?))
        }
        Formula::Restrict(body) => Ok(Formula::Restrict(heaped(
            alloc,
            copy_formula(alloc, body.get()),
        )?)),
        Formula::Import(import) => Ok(Formula::Import(*import)),
        Formula::Export(export, body) => Ok(Formula::Export(
            *export,
            heaped(alloc, copy_formula(alloc, body.get()))?,
        )),
        Formula::Domain(predicate, variable) => Ok(Formula::Domain(*predicate, *variable)),
    }
}

#[cycle(copy_formula)]
fn copy_domain(
    alloc: Global,
    domain: &Option<Boxed<Formula>>,
) -> Result<Option<Boxed<Formula>>, NoMemory>
    ensures { IfOk result (λ made. made ≡ domain.now) }
{
    match domain {
        None => Ok(None),
        Some(formula) => Ok(Some(heaped(alloc, copy_formula(alloc, formula.get()))?)),
    }
}

#[cycle(copy_formula)]
fn copy_all(alloc: Global, operands: &[Formula]) -> Result<List<Formula>, NoMemory>
    ensures { IfOk result (λ made. made ≡ operands.now) }
{
    let mut made = List::new(alloc);
    for operand in operands {
        push(&mut made, copy_formula(alloc, operand)?)?;
    }
    Ok(made)
}

#[cycle(copy_formula)]
fn copy_argument(alloc: Global, argument: &Arg) -> Result<Arg, NoMemory>
    ensures { IfOk result (λ made. made ≡ argument.now) }
{
    match argument {
        Arg::Zero(formula) => Ok(Arg::Zero(copy_formula(alloc, formula)?)),
        Arg::One(term) => Ok(Arg::One(copy_number(alloc, term)?)),
        Arg::Two(set) => Ok(Arg::Two(copy_set(alloc, set)?)),
    }
}

#[cycle(copy_formula)]
fn copy_binding(alloc: Global, binding: &Binding) -> Result<Binding, NoMemory>
    ensures { IfOk result (λ made. made ≡ binding.now) }
{
    Ok(Binding {
        variable: binding.variable,
        value: copy_argument(alloc, &binding.value)?,
    })
}

#[cycle(copy_formula)]
fn copy_bindings(alloc: Global, bindings: &[Binding]) -> Result<List<Binding>, NoMemory>
    ensures { IfOk result (λ made. made ≡ bindings.now) }
{
    let mut made = List::new(alloc);
    for binding in bindings {
        push(&mut made, copy_binding(alloc, binding)?)?;
    }
    Ok(made)
}

#[cycle(copy_formula)]
fn copy_arguments(alloc: Global, arguments: &[Arg]) -> Result<List<Arg>, NoMemory>
    ensures { IfOk result (λ made. made ≡ arguments.now) }
{
    let mut made = List::new(alloc);
    for argument in arguments {
        push(&mut made, copy_argument(alloc, argument)?)?;
    }
    Ok(made)
}
