ghost use Rattle.std.specs.Prelude.{◌≡◌, IfOk, IfSome, IfNone};
ghost use Rattle.ms_dfafile_adopt.specs.inner.Map.{ArePlacesOf, IsEachThere, IsIndex, file_names, pair_names};

use ms_dfa::FileVar;
use ms_list::{List, Name, NoMemory, push};
use ms_logic::MapPair;
use std::alloc::Global;
use std::collections::HashMap;

/// The names of the variables of a file.
pub(crate) fn file_names(alloc: Global, variables: &[FileVar]) -> Result<List<Name>, NoMemory>
    ensures { IfOk result (λ made. made ≡ file_names variables.now) }
{
    let mut made = List::new(alloc);
    for variable in variables {
        let name = Name::new(alloc, variable.name.text())?;
        push(&mut made, name)?;
    }
    Ok(made)
}

/// The names that pairs have.
pub(crate) fn pair_names(alloc: Global, pairs: &[MapPair]) -> Result<List<Name>, NoMemory>
    ensures { IfOk result (λ made. made ≡ pair_names pairs.now) }
{
    let mut made = List::new(alloc);
    for pair in pairs {
        let name = Name::new(alloc, pair.name.text())?;
        push(&mut made, name)?;
    }
    Ok(made)
}

/// A table of the places of names.
fn index<'a>(alloc: Global, names: &'a [Name]) -> Result<HashMap<&'a [u8], u32>, NoMemory>
    ensures { IfOk result (IsIndex names.now) }
{
    let Ok(mut made) = HashMap::with_capacity(alloc, names.len()) else {
        return Err(NoMemory);
    };
    let mut place: u32 = 0;
    for name in names {
        match made.insert(name.bytes(), place) {
            Ok(_) => {}
            Err(_) => return Err(NoMemory),
        }
        place = match place.checked_add(1) {
            Some(next) => next,
            None => return Err(NoMemory),
        };
    }
    Ok(made)
}

/// The place of each name in a list of names, where each stands there.
pub(crate) fn places(
    alloc: Global,
    names: &[Name],
    wanted: &[Name],
) -> Result<Option<List<u32>>, NoMemory>
    ensures some { IfOk result (λ found. IfSome found (ArePlacesOf names.now wanted.now)) }
    ensures none { IfOk result (λ found. IfNone found (¬ IsEachThere names.now wanted.now)) }
{
    let table = index(alloc, names)?;
    let mut made = List::new(alloc);
    for name in wanted {
        match table.get(name.bytes()) {
            Some(place) => push(&mut made, *place)?,
            None => return Ok(None),
        }
    }
    Ok(Some(made))
}
