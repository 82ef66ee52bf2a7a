ghost use Rattle.ms_names_rules.specs.Before.{with_export};
ghost use Rattle.ms_names_rules.specs.inner.Free.{export_use};
ghost use Rattle.ms_names_rules.specs.Reads.{variables_read, with_predicates};
ghost use Rattle.ms_names_rules.specs.Rules.{faults_of_export, faults_of_exports, first_name_twice, in_case};
ghost use Rattle.ms_names_rules.specs.Uses.{with_files};
ghost use Rattle.ms_names_rules.specs.declared.fault.Fault.TheVariants.{NotHere};
ghost use Rattle.ms_names_scopes.specs.inner.Read.{Tells};
ghost use Rattle.ms_names_scopes.specs.inner.Found.{with_faults};
ghost use Rattle.std.specs.List.{insert};
ghost use Rattle.std.specs.Option.{option_copied};
ghost use Rattle.std.specs.Prelude.{◌≡◌, ◌≤◌, ◌∷◌, drop, length, not, IfOk, OnOk};

use crate::checker::Checker;
use crate::free::Read;
use crate::seen::Seen;
use ms_list::{At, Name, NoMemory, Text};
use ms_logic::ExportUse;
use ms_names_rules::Fault;
use std::alloc::Global;
use std::mem;

// The first name of a list that stands there twice.
fn first_twice<'a>(alloc: Global, names: &'a [Name]) -> Result<Option<&'a Name>, NoMemory>
    ensures { IfOk result (λ found. option_copied found ≡ first_name_twice names.now) }
{
    let mut behind = Seen::new(alloc);
    let mut found = None;
    let mut left = names.len();
    while left > 0 {
        left -= 1;
        let name = &names[left];
        if behind.contains(name) {
            found = Some(name);
        }
        behind.add(name)?;
    }
    Ok(found)
}

/// Where the formula of an export begins: how many exports and readings there are, and the number of the export.
#[derive(Clone, Copy)]
pub struct Begun {
    pub exports: usize,
    pub reads: usize,
    pub number: u32,
}

impl Checker {
    /// Begins an export: reports it where none may stand.
    #[inline(never)]
    pub fn begin_export(&mut self, at: At) -> Result<Begun, NoMemory>
        ensures state { OnOk result (self.new ≡ record
            (with_faults self.old (in_case (not self.old.scope.exports_allowed) (NotHere at)))
            { before = with_export self.old.before }) }
        ensures exports { IfOk result (λ begun. begun.exports ≡ length self.old.exports) }
        ensures reads { IfOk result (λ begun. begun.reads ≡ length self.old.reads) }
        ensures number { IfOk result (λ begun. begun.number ≡ self.old.before.exports) }
    {
        let number = self.export_count;
        let Some(count) = number.checked_add(1) else {
            return Err(NoMemory);
        };
        if !self.exports_allowed {
            self.report(Fault::NotHere(at));
        }
        self.export_count = count;
        Ok(Begun {
            exports: self.exports.len(),
            reads: self.reads.len(),
            number,
        })
    }

    // The variables that are among the readings from a place on, through predicates too.
    fn read_from(&self, from: usize) -> Result<Read, NoMemory>
        requires { from ≤ length self.now.reads }
        ensures { IfOk result (λ read. Tells read (with_predicates self.now.scope.readings (drop from self.now.reads))) }
    {
        Read::through(self.alloc, &self.reads.slice()[from..], &self.predicates)
    }

    /// Notes an export before those inside it, with the variables that are read from a place on.
    #[inline(never)]
    pub fn note_export(
        &mut self,
        at: At,
        file: &Text,
        entry: usize,
        from: usize,
    ) -> Result<(), NoMemory>
        requires entry { entry ≤ length self.old.exports }
        requires from { from ≤ length self.old.reads }
        ensures { OnOk result (self.new ≡ record self.old {
          exports = insert self.old.exports entry
              (export_use at file.now (variables_read self.old.scope (drop from self.old.reads)));
        }) }
    {
        let read = self.read_from(from)?;
        let name = Text::new(self.alloc, file.text())?;
        let (variables, names) = self.names.variables_read(&read)?;
        let export = ExportUse {
            at,
            name,
            variables,
            names,
        };
        match self.exports.insert(entry, export) {
            Ok(()) => Ok(()),
            Err(_) => Err(NoMemory),
        }
    }

    /// Reports an export whose file name stands in an earlier one, or two of whose variables have one name.
    pub(crate) fn check_export(
        &mut self,
        export: &ExportUse,
        files: &mut Seen,
    ) -> Result<(), NoMemory>
        ensures state { OnOk result (self.new ≡ with_faults self.old (faults_of_export files.old export.now)) }
        ensures files { OnOk result (files.new ≡ export.now.name ∷ files.old) }
    {
        let file = Name::new(self.alloc, export.name.text())?;
        if files.contains(&file) {
            self.report_twice(export.at, &file)?;
        } else if let Some(name) = first_twice(self.alloc, export.names.slice())? {
            self.report_twice(export.at, name)?;
        }
        files.add(&file)
    }

    // Checks some exports in their order.
    fn check_each(&mut self, exports: &[ExportUse], files: &mut Seen) -> Result<(), NoMemory>
        ensures state { OnOk result (self.new ≡ with_faults self.old (faults_of_exports files.old exports.now)) }
        ensures files { OnOk result (files.new ≡ with_files files.old exports.now) }
    {
        for export in exports {
            self.check_export(export, files)?;
        }
        Ok(())
    }

    /// Checks the exports from a place on, by the file names of those before.
    pub fn check_exports(&mut self, from: usize, files: &mut Seen) -> Result<(), NoMemory>
        requires { from ≤ length self.old.exports }
        ensures state { OnOk result (self.new ≡ with_faults self.old (faults_of_exports files.old (drop from self.old.exports))) }
        ensures files { OnOk result (files.new ≡ with_files files.old (drop from self.old.exports)) }
    {
        // The exports are held apart while faults are reported.
        let exports = mem::replace(&mut self.exports, Vec::new(self.alloc));
        self.check_each(&exports[from..], files)?;
        self.exports = exports;
        Ok(())
    }
}
