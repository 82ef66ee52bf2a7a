//! The free names of a formula, each once, by their first free places. A place costs a look-up: for each name it is kept how many
//! quantifiers around bind it, and whether it has been noted.

ghost use Rattle.std.specs.Prelude.{◌≡◌, ◌∷◌, ◌++◌, [], ◌+◌, ◌-◌, ◌≤◌, List as Sequence, ℕ, if◌then◌else◌, length, map, IfOk, OnOk};
ghost use Rattle.std.specs.Str.{bytes_eq};
ghost use Rattle.ms_presburger.specs.Tree.{extent, extent_of_all, free_names, free_places, free_places_in_all, names_in_part, names_in_sum};
ghost use Rattle.ms_presburger.specs.View.{arithmetic_of, arithmetics};
ghost use Rattle.ms_presburger_parse.specs.inner.Gathering.{Binds, Gathers, IsMarked, bound_in, count_of, is_among, standing_in};

use indexmap::IndexMap;
use ms_list::{List, Name, NoMemory, push};
use ms_presburger::{Linear, Part};
use std::alloc::Global;

/// What is known of a name at a place.
#[derive(Clone, Copy)]
pub struct Standing {
    /// How many quantifiers around bind it.
    pub bound: u32,
    /// Whether it has been noted as a free name.
    pub noted: bool,
}

/// The free names so far, and what is known of each name.
#[derive(Drop)]
pub struct Gathered {
    pub standings: IndexMap<String, Standing>,
    pub names: List<Name>,
}

fn standing_of(gathered: &Gathered, name: &Name) -> Standing
    ensures { result ≡ standing_in gathered.now name.now }
{
    match gathered.standings.get(name.text()) {
        Some(standing) => *standing,
        None => Standing {
            bound: 0,
            noted: false,
        },
    }
}

fn set_standing(
    alloc: Global,
    gathered: &mut Gathered,
    name: &Name,
    standing: Standing,
) -> Result<(), NoMemory>
    ensures ok { OnOk result ((x : Sequence ℕ) → standing_in gathered.new x ≡ (if bytes_eq name.now x then standing else standing_in gathered.old x)) }
    ensures names { gathered.new.names ≡ gathered.old.names }
{
    let Ok(key) = String::from_str(alloc, name.text()) else {
        return Err(NoMemory);
    };
    let Ok(_) = gathered.standings.insert(key, standing) else {
        return Err(NoMemory);
    };
    Ok(())
}

/// A place of a name.
fn mention(alloc: Global, gathered: &mut Gathered, name: &Name) -> Result<(), NoMemory>
    requires { IsMarked gathered.old }
    ensures { OnOk result (Gathers gathered.old gathered.new (name.now ∷ [])) }
{
    let standing = standing_of(gathered, name);
    if standing.bound > 0 || standing.noted {
        return Ok(());
    }
    let noted = Standing {
        bound: 0,
        noted: true,
    };
    set_standing(alloc, gathered, name, noted)?;
    push(&mut gathered.names, Name::new(alloc, name.text())?)
}

fn mention_part(alloc: Global, gathered: &mut Gathered, part: &Part) -> Result<(), NoMemory>
    requires { IsMarked gathered.old }
    ensures { OnOk result (Gathers gathered.old gathered.new (names_in_part part.now)) }
{
    match part {
        Part::Number(_) => Ok(()),
        Part::Var(name) => mention(alloc, gathered, name),
        Part::Times(_, name) => mention(alloc, gathered, name),
    }
}

fn mention_sum(alloc: Global, gathered: &mut Gathered, parts: &[Part]) -> Result<(), NoMemory>
    requires { IsMarked gathered.old }
    ensures { OnOk result (Gathers gathered.old gathered.new (names_in_sum parts.now)) }
{
    for part in parts {
        mention_part(alloc, gathered, part)?;
    }
    Ok(())
}

/// The names are bound once more each.
fn bind(alloc: Global, gathered: &mut Gathered, names: &[Name]) -> Result<(), NoMemory>
    requires marked { IsMarked gathered.old }
    requires room { (x : Sequence ℕ) → bound_in gathered.old x + length names.now ≤ 67108864 }
    ensures { OnOk result (Binds gathered.old gathered.new (λ x. bound_in gathered.old x + count_of names.now x)) }
{
    for name in names {
        let Standing { bound, noted } = standing_of(gathered, name);
        let more = Standing {
            bound: bound + 1,
            noted,
        };
        set_standing(alloc, gathered, name, more)?;
    }
    Ok(())
}

/// The names are bound once less each.
fn unbind(alloc: Global, gathered: &mut Gathered, names: &[Name]) -> Result<(), NoMemory>
    requires marked { IsMarked gathered.old }
    requires bound { (x : Sequence ℕ) → count_of names.now x ≤ bound_in gathered.old x }
    ensures { OnOk result (Binds gathered.old gathered.new (λ x. bound_in gathered.old x - count_of names.now x)) }
{
    for name in names {
        let Standing { bound, noted } = standing_of(gathered, name);
        let less = Standing {
            bound: bound - 1,
            noted,
        };
        set_standing(alloc, gathered, name, less)?;
    }
    Ok(())
}

/// The free names of a formula, where names are bound around it.
#[cycle(gathering)]
fn gather(alloc: Global, gathered: &mut Gathered, formula: &Linear) -> Result<(), NoMemory>
    requires marked { IsMarked gathered.old }
    requires room { (x : Sequence ℕ) → bound_in gathered.old x + extent (arithmetic_of formula.now) ≤ 67108864 }
    ensures { OnOk result (Gathers gathered.old gathered.new (free_places (arithmetic_of formula.now))) }
{
    match formula {
        Linear::True => Ok(()),
        Linear::False => Ok(()),
        Linear::Compare(_, left, right) => {
            mention_sum(alloc, gathered, left.slice())?;
            mention_sum(alloc, gathered, right.slice())
        }
        Linear::Paren(body) => gather(alloc, gathered, body.get()),
        Linear::Not(body) => gather(alloc, gathered, body.get()),
        Linear::And(operands) => gather_all(alloc, gathered, operands.slice()),
        Linear::Or(operands) => gather_all(alloc, gathered, operands.slice()),
        Linear::Implies(left, right) => {
            gather(alloc, gathered, left.get())?;
            gather(alloc, gathered, right.get())
        }
        Linear::Iff(left, right) => {
            gather(alloc, gathered, left.get())?;
            gather(alloc, gathered, right.get())
        }
        Linear::Bind(_, names, body) => {
            bind(alloc, gathered, names.slice())?;
            gather(alloc, gathered, body.get())?;
            unbind(alloc, gathered, names.slice())
        }
    }
}

/// The same for each formula of a list.
#[cycle(gathering)]
fn gather_all(alloc: Global, gathered: &mut Gathered, operands: &[Linear]) -> Result<(), NoMemory>
    requires marked { IsMarked gathered.old }
    requires room { (x : Sequence ℕ) → bound_in gathered.old x + extent_of_all (arithmetics (map arithmetic_of operands.now)) ≤ 67108864 }
    ensures { OnOk result (Gathers gathered.old gathered.new (free_places_in_all (arithmetics (map arithmetic_of operands.now)))) }
{
    for operand in operands {
        gather(alloc, gathered, operand)?;
    }
    Ok(())
}

fn nothing_gathered(alloc: Global) -> Gathered
    ensures marked { IsMarked result }
    ensures unbound { (x : Sequence ℕ) → bound_in result x ≡ 0 }
    ensures none { result.names ≡ [] }
{
    Gathered {
        standings: IndexMap::new(alloc),
        names: List::new(alloc),
    }
}

/// The free names of a formula, each once, by their first free places.
pub fn free_names(alloc: Global, formula: &Linear) -> Result<List<Name>, NoMemory>
    requires { extent (arithmetic_of formula.now) ≤ 67108864 }
    ensures { IfOk result (λ names. names ≡ free_names (arithmetic_of formula.now)) }
{
    let mut gathered = nothing_gathered(alloc);
    gather(alloc, &mut gathered, formula)?;
    let Gathered { names, .. } = gathered;
    Ok(names)
}
