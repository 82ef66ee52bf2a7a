ghost use Rattle.ms_names_rules.specs.Reads.{readings_of_call};
ghost use Rattle.ms_names_rules.specs.Rules.{faults_of_call, faults_of_whole};
ghost use Rattle.ms_names_rules.specs.Scope.{meaning_of};
ghost use Rattle.ms_names_scopes.specs.inner.Found.{noted, with_faults};
ghost use Rattle.std.specs.Prelude.{◌≡◌, IfOk, OnOk};

use crate::checker::Checker;
use crate::memory::copy_name;
use ms_list::{At, Name, NoMemory, push};
use ms_logic::Mode;
use ms_names_rules::{Fault, Meaning, Reading};

/// A number of the program as it stands in trees and refusals.
pub fn small(count: usize) -> Result<u32, NoMemory>
    ensures { IfOk result (λ small. small ≡ count) }
{
    match u32::try_from(count) {
        Ok(small) => Ok(small),
        Err(_) => Err(NoMemory),
    }
}

impl Checker {
    /// Reports `$` in WS1S.
    #[inline(never)]
    pub fn check_whole(&mut self, at: At)
        ensures { self.new ≡ with_faults self.old (faults_of_whole self.old.scope.mode at) }
    {
        match self.mode {
            Mode::Ws1s => self.report(Fault::NotHere(at)),
            Mode::M2lStr => {}
        }
    }

    /// A name before brackets with a number of arguments: what is wrong with it, and what it reads.
    pub(crate) fn check_call(&mut self, at: At, name: &Name, given: u32) -> Result<(), NoMemory>
        ensures { OnOk result (self.new ≡ noted self.old
            (faults_of_call at name.now given (meaning_of self.old.scope name.now))
            (readings_of_call (meaning_of self.old.scope name.now))) }
    {
        match self.meaning(name) {
            None => {
                let name = copy_name(self.alloc, name)?;
                self.report(Fault::UnknownName(at, name));
            }
            Some(Meaning::Predicate(number, parameters)) => {
                let number = *number;
                let wanted = small(parameters.len())?;
                push(&mut self.reads, Reading::Predicate(number))?;
                if given != wanted {
                    let name = copy_name(self.alloc, name)?;
                    self.report(Fault::WrongCount(at, name, given, wanted));
                }
            }
            Some(_) => self.report(Fault::WrongOrder(at)),
        }
        Ok(())
    }
}
