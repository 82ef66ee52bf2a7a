//! The variables of the names in scope, each looked up by its name.

ghost use Rattle.std.specs.Prelude.{◌≡◌, ℕ, ◌*◌, ◌+◌, ◌<◌, ◌^◌, length, IfOk, OnOk};
ghost use Rattle.ms_presburger.specs.Sets.{Scope, with_variable};
ghost use Rattle.ms_presburger.specs.Source.{place_of};
ghost use Rattle.ms_presburger.specs.inner.Scopes.{IsAsIn, bound_in, hidden_by, variable_in};

use indexmap::IndexMap;
use ms_list::{List, Name, NoMemory, push};
use std::alloc::Global;

/// The variable of each name in scope.
#[derive(Drop)]
pub(crate) struct Bindings {
    variables: IndexMap<String, u32>,
    /// What a name goes by that is not in scope.
    others: u32,
}

/// The variable of a name.
pub(crate) fn variable_of(bindings: &Bindings, name: &Name) -> u32
    ensures { result ≡ variable_in bindings.now name.now }
{
    match bindings.variables.get(name.text()) {
        Some(variable) => *variable,
        None => bindings.others,
    }
}

/// The name has this variable from here on.
fn set(alloc: Global, bindings: &mut Bindings, name: &Name, variable: u32) -> Result<(), NoMemory>
    ensures { OnOk result (IsAsIn (with_variable name.now variable (variable_in bindings.old)) bindings.new) }
{
    let Ok(key) = String::from_str(alloc, name.text()) else {
        return Err(NoMemory);
    };
    let Ok(_) = bindings.variables.insert(key, variable) else {
        return Err(NoMemory);
    };
    Ok(())
}

fn nothing(alloc: Global, others: u32) -> Bindings
    ensures { IsAsIn (λ name. others) result }
{
    Bindings {
        variables: IndexMap::new(alloc),
        others,
    }
}

/// The free names go by their first places.
pub(crate) fn free(alloc: Global, names: &[Name]) -> Result<Bindings, NoMemory>
    requires { length names.now < 2 ^ 32 }
    ensures { IfOk result (IsAsIn (place_of names.now)) }
{
    let mut bindings = nothing(alloc, names.len() as u32);
    let mut left = names.len();
    while left > 0 {
        left -= 1;
        set(alloc, &mut bindings, &names[left], left as u32)?;
    }
    Ok(bindings)
}

/// The names are bound from `x` on. Gives the variables that they had, in the order of the names.
#[inline(never)]
pub(crate) fn bind(
    alloc: Global,
    bindings: &mut Bindings,
    x: u32,
    names: &[Name],
) -> Result<List<u32>, NoMemory>
    requires { x + 2 * length names.now < 2 ^ 32 }
    ensures scope { OnOk result ((scope : Scope) → IsAsIn scope bindings.old → IsAsIn (bound_in x scope names.now) bindings.new) }
    ensures hidden { IfOk result (λ hidden. (scope : Scope) → IsAsIn scope bindings.old → hidden ≡ hidden_by x scope names.now) }
{
    let mut hidden = List::new(alloc);
    for (i, name) in names.iter().enumerate() {
        push(&mut hidden, variable_of(bindings, name))?;
        set(alloc, bindings, name, x + 2 * i as u32)?;
    }
    Ok(hidden)
}

/// The names have the variables again that they had before they were bound.
#[inline(never)]
pub(crate) fn unbind(
    alloc: Global,
    bindings: &mut Bindings,
    names: &[Name],
    hidden: &[u32],
) -> Result<(), NoMemory>
    requires { length hidden.now ≡ length names.now }
    ensures { OnOk result ((x : ℕ) (scope : Scope) → hidden.now ≡ hidden_by x scope names.now → IsAsIn (bound_in x scope names.now) bindings.old →
        IsAsIn scope bindings.new) }
{
    let mut left = names.len();
    while left > 0 {
        left -= 1;
        set(alloc, bindings, &names[left], hidden[left])?;
    }
    Ok(())
}
