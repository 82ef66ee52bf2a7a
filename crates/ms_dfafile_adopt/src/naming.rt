ghost use Rattle.std.specs.Prelude.{◌≡◌, ◌≢◌, ◌<◌, ◌↔◌, ℕ, AllPairs, length, map, slice_index, IfOk, IfSome, IfNone, IsTrue};
ghost use Rattle.ms_dfafile_adopt.specs.Import.{HasVariables};
ghost use Rattle.ms_dfafile_adopt.specs.inner.Map.{HaveOrdersAt};
ghost use Rattle.ms_dfafile_adopt.specs.Naming.{IsNaming};

use crate::names::{file_names, pair_names, places};
use ms_dfa::{FileVar, Plain};
use ms_list::{List, NoMemory};
use ms_logic::MapPair;
use std::alloc::Global;

/// Whether variables have the orders of the pairs at these places.
fn have_orders(variables: &[FileVar], pairs: &[MapPair], places: &[u32]) -> bool
    requires long { length places.now ≡ length variables.now }
    requires within { (i : ℕ) → i < length variables.now → slice_index places.now i < length pairs.now }
    ensures { IsTrue result ↔ HaveOrdersAt variables.now pairs.now places.now }
{
    for i in 0..variables.len() {
        if pairs[places[i] as usize].order != variables[i].order {
            return false;
        }
    }
    true
}

/// For each variable of a file the place of the pair that names it, where the pairs name just these variables.
pub(crate) fn naming(
    alloc: Global,
    plain: &Plain,
    pairs: &[MapPair],
) -> Result<Option<List<u32>>, NoMemory>
    requires { AllPairs (λ one other. one ≢ other) (map (λ pair. pair.name) pairs.now) }
    ensures some { IfOk result (λ found. IfSome found (IsNaming plain.now pairs.now)) }
    ensures none { IfOk result (λ found. IfNone found (¬ HasVariables plain.now pairs.now)) }
{
    let own = file_names(alloc, plain.variables.slice())?;
    let named = pair_names(alloc, pairs)?;
    let made = match places(alloc, named.slice(), own.slice())? {
        Some(made) => made,
        None => return Ok(None),
    };
    match places(alloc, own.slice(), named.slice())? {
        Some(_) => {}
        None => return Ok(None),
    }
    if !have_orders(plain.variables.slice(), pairs, made.slice()) {
        return Ok(None);
    }
    Ok(Some(made))
}
