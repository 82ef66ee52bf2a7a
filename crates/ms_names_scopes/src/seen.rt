ghost use Rattle.ms_names_rules.specs.Rules.{is_name_among};
ghost use Rattle.std.specs.Prelude.{◌≡◌, ◌∷◌, [], OnOk};

use crate::names::Names;
use ms_list::{Name, NoMemory};
use ms_names_rules::Meaning;
use std::alloc::Global;
use std::marker::Model;

/// The names of one list so far. Contracts see them, the last first.
#[derive(Drop)]
pub struct Seen {
    // Each name means the number 0 here.
    names: Names,
}

impl Model for Seen {
    ghost use Rattle.std.specs.Prelude.{List, ℕ, map};

    ghost Value = { List (List ℕ) };

    ghost view = { λ seen. map (λ entry. entry.0) seen.names };
}

impl Seen {
    /// No names.
    pub fn new(alloc: Global) -> Seen
        ensures { result ≡ [] }
    {
        Seen {
            names: Names::new(alloc),
        }
    }

    /// Whether the name is among them.
    pub(crate) fn contains(&self, name: &Name) -> bool
        ensures { result ≡ is_name_among name.now self.now }
    {
        self.names.meaning(name).is_some()
    }

    /// One more name.
    pub(crate) fn add(&mut self, name: &Name) -> Result<(), NoMemory>
        ensures { OnOk result (self.new ≡ name.now ∷ self.old) }
    {
        self.names.bind(name, Meaning::Constant(0))
    }
}
