ghost use Rattle.ms_names_rules.specs.Constant.{value_of};
ghost use Rattle.ms_names_rules.specs.Rules.{faults_of_offset, faults_of_placed, in_case};
ghost use Rattle.ms_names_rules.specs.declared.fault.Fault.TheVariants.{OutOfRange};
ghost use Rattle.ms_names_scopes.specs.inner.Found.{with_faults};
ghost use Rattle.std.specs.Prelude.{◌≡◌, nat_lt, OnOk};

use crate::checker::Checker;
use crate::memory::copy_name;
use ms_list::{At, NoMemory};
use ms_logic::{Int, PlacedInt};
use ms_names_rules::{Fault, Meaning};

const GREATEST_IN_TERMS: u64 = 65535;

impl Checker {
    /// The value of a number or of the name of a constant.
    pub fn value(&self, int: &PlacedInt) -> Option<u64>
        ensures { result ≡ value_of self.now.scope int.now }
    {
        match &int.value {
            Int::Number(number) => Some(*number),
            Int::Constant(name) => match self.meaning(name) {
                Some(Meaning::Constant(value)) => Some(*value),
                _ => None,
            },
        }
    }

    /// Reports a name in the place of a number that is unknown or no constant.
    #[inline(never)]
    pub fn check_int(&mut self, int: &PlacedInt) -> Result<(), NoMemory>
        ensures { OnOk result (self.new ≡ with_faults self.old (faults_of_placed self.old.scope int.now)) }
    {
        let Int::Constant(name) = &int.value else {
            return Ok(());
        };
        match self.meaning(name) {
            Some(Meaning::Constant(_)) => {}
            Some(_) => self.report(Fault::WrongOrder(int.at)),
            None => {
                let name = copy_name(self.alloc, name)?;
                self.report(Fault::UnknownName(int.at, name));
            }
        }
        Ok(())
    }

    /// Reports a number after `+` or `-` that is too large for a term.
    #[inline(never)]
    pub fn check_offset(&mut self, at: At, value: Option<u64>)
        ensures { self.new ≡ with_faults self.old (faults_of_offset at value) }
    {
        if let Some(value) = value {
            self.check_number(at, value);
        }
    }

    /// Reports a number that is too large for a term.
    #[inline(never)]
    pub fn check_number(&mut self, at: At, value: u64)
        ensures { self.new ≡ with_faults self.old (in_case (nat_lt 65535 value) (OutOfRange at)) }
    {
        if value > GREATEST_IN_TERMS {
            self.report(Fault::OutOfRange(at));
        }
    }
}
