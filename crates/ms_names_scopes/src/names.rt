ghost use Rattle.indexmap.specs.IndexMap.{get_by_text};
ghost use Rattle.ms_names_rules.specs.inner.Free.{Readings, read_among};
ghost use Rattle.ms_names_rules.specs.Scope.{meaning_among, variables_among};
ghost use Rattle.ms_names_scopes.specs.inner.Read.{Tells};
ghost use Rattle.ms_names_scopes.specs.inner.Table.{flat, number_of, IsNoted, IsSame, named_meaning};
ghost use Rattle.std.specs.Prelude.{◌≡◌, [], ◌∷◌, ◌++◌, drop, length, map, IfOk, OnOk, OnErr, option_copied, string_bytes};

use crate::free::Read;
use crate::memory::add;
use crate::name::small;
use crate::numbers::Numbers;
use crate::ordered::take_first;
use indexmap::IndexMap;
use ms_list::{List, Name, NoMemory, push};
use ms_names_rules::Meaning;
use std::alloc::Global;
use std::marker::Model;

/// A name with what it means, and the place of the entry that it hides.
#[derive(Drop)]
pub(crate) struct Entry {
    pub(crate) name: String,
    pub(crate) meaning: Meaning,
    pub(crate) hidden: Option<u32>,
}

/// The names that are seen. Contracts see the list of names and meanings, the innermost first.
#[derive(Drop)]
pub(crate) struct Names {
    alloc: Global,
    places: IndexMap<String, Option<u32>>,
    numbers: Numbers,
    entries: Vec<Entry>,
}

impl Model for Names {
    ghost use Rattle.std.specs.Prelude.{List, ℕ};
    ghost use Rattle.indexmap.specs.IndexMap.{get_by_text};
    ghost use Rattle.ms_names_rules.specs.declared.meaning.Meaning.{Meaning as Stands};
    ghost use Rattle.ms_names_scopes.specs.inner.Table.{IsTable, names_of};

    ghost Value = { List (List ℕ × Stands) };

    ghost view = { λ names. names_of names.entries.items };

    ghost invariant = { λ names. IsTable (λ n. get_by_text names.places n) names.numbers names.entries.items };
}

impl Names {
    /// No names.
    pub(crate) fn new(alloc: Global) -> Names
        ensures { result ≡ [] }
    {
        Names {
            alloc,
            places: IndexMap::new(alloc),
            numbers: Numbers::new(alloc),
            entries: Vec::new(alloc),
        }
    }

    /// How many names are seen, hidden ones too.
    pub(crate) fn len(&self) -> usize
        ensures { result ≡ length self.now }
    {
        self.entries.len()
    }

    /// What the name means here, if it is declared.
    pub(crate) fn meaning(&self, name: &Name) -> Option<&Meaning>
        ensures { option_copied result ≡ meaning_among self.now name.now }
    {
        match place_in(&self.places, name) {
            Some(place) => Some(&self.entries[place as usize].meaning),
            None => None,
        }
    }

    /// One more name, which hides an outer one.
    pub(crate) fn bind(&mut self, name: &Name, meaning: Meaning) -> Result<(), NoMemory>
        ensures { OnOk result (self.new ≡ (name.now, meaning) ∷ self.old) }
    {
        let Ok(key) = String::from_str(self.alloc, name.text()) else {
            return Err(NoMemory);
        };
        let Ok(own) = String::from_str(self.alloc, name.text()) else {
            return Err(NoMemory);
        };
        let hidden = place_in(&self.places, name);
        let place = small(self.entries.len())?;
        self.numbers.push(variable_number(&meaning))?;
        let entry = Entry {
            name: own,
            meaning,
            hidden,
        };
        let Ok(()) = add(&mut self.entries, entry) else {
            self.numbers.pop();
            return Err(NoMemory);
        };
        let Ok(()) = set_place(&mut self.places, key, Some(place)) else {
            self.entries.pop();
            self.numbers.pop();
            return Err(NoMemory);
        };
        Ok(())
    }

    /// The variables among the names that are read, the outermost first, by their numbers and by their names.
    pub(crate) fn variables_read(&self, read: &Read) -> Result<(List<u32>, List<Name>), NoMemory>
        ensures { IfOk result (λ free. (rs : Readings) → Tells read.now rs
            → (free.0 ≡ map (λ v. v.number) (read_among rs (variables_among self.now)))
            × (free.1 ≡ map (λ v. v.name) (read_among rs (variables_among self.now)))) }
    {
        let mut places = self
            .numbers
            .places_of(self.alloc, read.variables.as_slice())?;
        let mut numbers = List::new(self.alloc);
        let mut names = List::new(self.alloc);
        while let Some(place) = take_first(&mut places) {
            note_entry(self.alloc, &self.entries[place], &mut numbers, &mut names)?;
        }
        Ok((numbers, names))
    }

    /// Without the innermost names, so many.
    pub(crate) fn unbind_all(&mut self, count: usize)
        ensures { self.new ≡ drop count self.old }
    {
        for _i in 0..count {
            self.unbind();
        }
    }

    /// Without the innermost name.
    pub(crate) fn unbind(&mut self)
        ensures { self.new ≡ drop 1 self.old }
    {
        if let Some(entry) = self.entries.pop() {
            self.numbers.pop();
            let Entry {
                name,
                meaning: _,
                hidden,
            } = entry;
            // The name is there, so this takes no memory.
            let Ok(()) = set_place(&mut self.places, name, hidden) else {
                return;
            };
        }
    }
}

// The number of a variable.
fn variable_number(meaning: &Meaning) -> Option<u32>
    ensures { result ≡ number_of meaning.now }
{
    match meaning {
        Meaning::Variable(x, _) => Some(*x),
        Meaning::Constant(_) => None,
        Meaning::Predicate(_, _) => None,
    }
}

// An entry behind those before it, if it is a variable.
fn note_entry(
    alloc: Global,
    entry: &Entry,
    numbers: &mut List<u32>,
    names: &mut List<Name>,
) -> Result<(), NoMemory>
    ensures numbers { OnOk result (numbers.new ≡ numbers.old ++ map (λ v. v.number) (variables_among (named_meaning entry.now ∷ []))) }
    ensures names { OnOk result (names.new ≡ names.old ++ map (λ v. v.name) (variables_among (named_meaning entry.now ∷ []))) }
{
    let Some(x) = variable_number(&entry.meaning) else {
        return Ok(());
    };
    let name = Name::new(alloc, entry.name.as_str())?;
    push(numbers, x)?;
    push(names, name)?;
    Ok(())
}

// The place of the innermost entry of a name.
fn place_in(places: &IndexMap<String, Option<u32>>, name: &Name) -> Option<u32>
    ensures { result ≡ flat (get_by_text places.now name.now) }
{
    match places.get(name.text()) {
        Some(place) => *place,
        None => None,
    }
}

// Notes the place of the innermost entry of a name. A name that is there takes no memory.
fn set_place(
    places: &mut IndexMap<String, Option<u32>>,
    name: String,
    place: Option<u32>,
) -> Result<(), NoMemory>
    ensures ok { OnOk result (IsNoted (λ n. get_by_text places.old n) (λ n. get_by_text places.new n) (string_bytes name) place) }
    ensures err { OnErr result (get_by_text places.old (string_bytes name) ≡ None) }
    ensures same { OnErr result (IsSame (λ n. get_by_text places.old n) (λ n. get_by_text places.new n)) }
{
    let Ok(_) = places.insert(name, place) else {
        return Err(NoMemory);
    };
    Ok(())
}
