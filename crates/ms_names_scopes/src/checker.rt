ghost use Rattle.ms_names_rules.specs.Fault.{first_of_two};
ghost use Rattle.ms_names_rules.specs.Scope.{meaning_of};
ghost use Rattle.ms_names_scopes.specs.inner.Found.{beginning, noted};
ghost use Rattle.std.specs.Prelude.{◌≡◌, ◌∷◌, [], None, length, option_copied, OnOk};

use crate::names::Names;
use ms_list::{List, Name, NoMemory, push};
use ms_logic::{ExportUse, ImportUse, Mode};
use ms_names_rules::{Fault, Meaning, Reading};
use std::alloc::Global;
use std::marker::Model;
use std::mem;

/// What the check of a declaration knows and has found so far.
#[derive(Drop)]
pub struct Checker {
    pub alloc: Global,
    pub(crate) mode: Mode,
    pub(crate) names: Names,
    pub(crate) predicates: Vec<List<Reading>>,
    pub(crate) default_of_numbers: Option<u32>,
    pub(crate) default_of_sets: Option<u32>,
    pub(crate) exports_allowed: bool,
    pub(crate) next: u32,
    pub(crate) import_count: u32,
    pub(crate) export_count: u32,
    pub(crate) first: Option<Fault>,
    pub(crate) reads: List<Reading>,
    pub(crate) imports: List<ImportUse>,
    pub(crate) exports: Vec<ExportUse>,
}

impl Model for Checker {
    ghost use Rattle.ms_names_scopes.specs.inner.Found.{Found};
    ghost use Rattle.std.specs.Prelude.{reverse};

    ghost Value = { Found };

    ghost view = { λ c. record {
      scope = record {
        mode = c.mode;
        names = c.names;
        readings = reverse c.predicates.items;
        default_of_numbers = c.default_of_numbers;
        default_of_sets = c.default_of_sets;
        exports_allowed = c.exports_allowed;
      };
      before = record { next = c.next; imports = c.import_count; exports = c.export_count };
      first = c.first;
      reads = c.reads;
      imports = c.imports;
      exports = c.exports.items;
    } };
}

impl Checker {
    /// Before the first declaration, where bound names are numbered from a number on.
    pub fn new(alloc: Global, mode: Mode, next: u32) -> Checker
        ensures { result ≡ beginning mode next }
    {
        Checker {
            alloc,
            mode,
            names: Names::new(alloc),
            predicates: Vec::new(alloc),
            default_of_numbers: None,
            default_of_sets: None,
            exports_allowed: true,
            next,
            import_count: 0,
            export_count: 0,
            first: None,
            reads: List::new(alloc),
            imports: List::new(alloc),
            exports: Vec::new(alloc),
        }
    }

    /// The imports and the exports.
    pub fn into_uses(self) -> (List<ImportUse>, List<ExportUse>)
        ensures imports { result.0 ≡ self.imports }
        ensures exports { result.1 ≡ self.exports }
    {
        let Checker {
            imports,
            exports,
            ..
        } = self;
        (imports, List::from(exports))
    }

    /// What the name means here, if it is declared.
    pub fn meaning(&self, name: &Name) -> Option<&Meaning>
        ensures { option_copied result ≡ meaning_of self.now.scope name.now }
    {
        self.names.meaning(name)
    }

    /// The first fault, which is forgotten.
    pub fn take_first(&mut self) -> Option<Fault>
        ensures state { self.new ≡ record self.old { first = None } }
        ensures value { result ≡ self.old.first }
    {
        mem::replace(&mut self.first, None)
    }

    /// Begins a declaration: nothing is found in it yet.
    pub fn begin(&mut self)
        ensures { self.new ≡ record self.old { first = None; reads = [] } }
    {
        self.first = None;
        self.reads = List::new(self.alloc);
    }

    /// How many exports there are.
    pub fn exports_so_far(&self) -> usize
        ensures { result ≡ length self.now.exports }
    {
        self.exports.len()
    }

    /// Notes one more reading.
    pub fn read(&mut self, reading: Reading) -> Result<(), NoMemory>
        ensures { OnOk result (self.new ≡ noted self.old [] (reading ∷ [])) }
    {
        push(&mut self.reads, reading)
    }

    /// One more fault.
    pub fn report(&mut self, fault: Fault)
        ensures { self.new ≡ record self.old { first = first_of_two self.old.first fault } }
    {
        let is_first = match &self.first {
            None => true,
            Some(known) => fault.comes_before(known),
        };
        if is_first {
            self.first = Some(fault);
        }
    }
}
