//! Sources whose globals are sets.

ghost use Rattle.ms_logic.specs.Tree.{Form};
ghost use Rattle.ms_logic.specs.declared.checked.Global.{Global as Variable};
ghost use Rattle.ms_translation.specs.Made.{GiveAll};
ghost use Rattle.ms_translation.specs.Source.{IsSourceOver, global_of, placed_as, placed_from};
ghost use Rattle.std.specs.Prelude.{◌≡◌, ◌+◌, ◌<◌, ◌^◌, [], None, length, map, IfOk, IsOk, OnOk, List as Sequence};

use crate::made::{MadeList, both};
use ms_list::{At, List, Name, NoMemory, push};
use ms_logic::{Checked, Formula, Global as Variable, Mode, Order, Placed};
use std::alloc::Global;

/// A variable for a set with this name.
fn variable(alloc: Global, name: &Name) -> Result<Variable, NoMemory>
    ensures { IfOk result (λ made. made ≡ global_of name.now) }
{
    let name = Name::new(alloc, name.text())?;
    Ok(Variable {
        at: At { file: 0, place: 0 },
        item: 0,
        order: Order::Two,
        name,
        domain: None,
    })
}

fn variables(alloc: Global, names: &[Name]) -> Result<List<Variable>, NoMemory>
    ensures { IfOk result (λ made. made ≡ map global_of names.now) }
{
    let mut made = List::new(alloc);
    for name in names {
        push(&mut made, variable(alloc, name)?)?;
    }
    Ok(made)
}

/// The formula as the declaration behind that of the globals and as many others.
fn placed(others: usize, formula: Formula) -> Placed
    requires { others + 1 < 2 ^ 32 }
    ensures { result ≡ placed_as (others + 1) formula }
{
    Placed {
        at: At { file: 0, place: 0 },
        item: others as u32 + 1,
        title: None,
        formula,
    }
}

/// Each formula in a declaration of its own, with the numbers from 1 on.
fn declared(alloc: Global, formulas: MadeList) -> Result<List<Placed>, NoMemory>
    requires { IfOk formulas (λ made. length made + 1 < 2 ^ 32) }
    ensures declared { IfOk formulas (λ fs. IfOk result (λ made. made ≡ placed_from 1 fs)) }
    ensures made { OnOk result (IsOk formulas) }
{
    let mut made = List::new(alloc);
    for formula in formulas?.into_vec() {
        let next = placed(made.len(), formula);
        push(&mut made, next)?;
    }
    Ok(made)
}

/// A source of a mode whose globals are sets with these names, in the declaration with number 0. Its formulas stand in the
/// declarations with the numbers from 1 on, one for each. All are at place 0 of file 0, which has no name here.
pub fn source_over(
    alloc: Global,
    mode: Mode,
    names: &[Name],
    formulas: MadeList,
) -> Result<Checked, NoMemory>
    requires { IfOk formulas (λ made. length made + 1 < 2 ^ 32) }
    ensures source { (fs : Sequence Form) → GiveAll formulas fs → IfOk result (IsSourceOver mode names.now fs) }
    ensures files { IfOk result (λ made. made.files ≡ []) }
    ensures made { OnOk result (IsOk formulas) }
{
    let (globals, formulas) = both(variables(alloc, names), declared(alloc, formulas))?;
    Ok(Checked {
        mode,
        globals,
        predicates: List::new(alloc),
        imports: List::new(alloc),
        exports: List::new(alloc),
        formulas,
        files: List::new(alloc),
    })
}
