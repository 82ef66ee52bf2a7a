ghost use Rattle.std.specs.Prelude.{◌≡◌, ◌≤◌, ◌∷◌, ◌++◌, [], ℕ, List as Sequence, bytes_eq, if◌then◌else◌, length, IfOk, OnOk};
ghost use Rattle.indexmap.specs.IndexMap.{get_by_text};
ghost use Rattle.ms_ltlf_parse.specs.Reading.{place, with_name};
ghost use Rattle.ms_ltlf_parse.specs.inner.Sights.{IsTable};

use indexmap::IndexMap;
use ms_list::{List, Name, NoMemory, push};
use std::alloc::Global;

/// The names in the order of first sight, and the place of each.
#[derive(Drop)]
pub struct Sights {
    pub places: IndexMap<String, u32>,
    pub names: List<Name>,
}

/// No names.
pub fn no_sights(alloc: Global) -> Sights
    ensures table { IsTable (λ n. get_by_text result.places n) result.names }
    ensures none { result.names ≡ [] }
{
    Sights {
        places: IndexMap::new(alloc),
        names: List::new(alloc),
    }
}

fn place_of(places: &IndexMap<String, u32>, name: &str) -> Option<u32>
    ensures { result ≡ get_by_text places.now name.now }
{
    match places.get(name) {
        Some(place) => Some(*place),
        None => None,
    }
}

fn note(
    alloc: Global,
    places: &mut IndexMap<String, u32>,
    name: &str,
    place: u32,
) -> Result<(), NoMemory>
    ensures { OnOk result ((n : Sequence ℕ) → get_by_text places.new n ≡ (if bytes_eq name.now n then Some place else get_by_text places.old n)) }
{
    let Ok(key) = String::from_str(alloc, name) else {
        return Err(NoMemory);
    };
    let Ok(_) = places.insert(key, place) else {
        return Err(NoMemory);
    };
    Ok(())
}

/// The place of a name, which is put behind the others if it is not there.
pub fn number(alloc: Global, sights: &mut Sights, name: &str) -> Result<u32, NoMemory>
    requires table { IsTable (λ n. get_by_text sights.old.places n) sights.old.names }
    requires room { length sights.old.names ≤ 67108864 }
    ensures table { OnOk result (IsTable (λ n. get_by_text sights.new.places n) sights.new.names) }
    ensures names { OnOk result (sights.new.names ≡ with_name sights.old.names name.now) }
    ensures number { IfOk result (λ number. number ≡ place sights.old.names name.now) }
{
    if let Some(place) = place_of(&sights.places, name) {
        return Ok(place);
    }
    let place = sights.names.len() as u32;
    note(alloc, &mut sights.places, name, place)?;
    push(&mut sights.names, Name::new(alloc, name)?)?;
    Ok(place)
}
