ghost use Rattle.ms_names_rules.specs.Constant.{next_sum, sum_from, value_of_sum};
ghost use Rattle.ms_names_rules.specs.Declarations.{declared_names, faults_of_sum};
ghost use Rattle.ms_names_rules.specs.Rules.{faults_of_placed, faults_of_repeat};
ghost use Rattle.ms_names_scopes.specs.inner.Declaration.{sum_of};
ghost use Rattle.ms_names_scopes.specs.inner.Found.{with_faults};
ghost use Rattle.std.specs.Prelude.{◌≡◌, ◌++◌, flat_map, IfOk, OnOk};

use crate::checker::Checker;
use ms_list::{At, Name, NoMemory};
use ms_logic::PlacedInt;
use ms_names_rules::Fault;

/// What the sums of a constant come to: a number, out of the range of constants, or nothing by a name without a value.
#[derive(Clone, Copy)]
pub(crate) enum Total {
    Value(u64),
    LeavesRange,
    HasNoValue,
}

impl Total {
    // The value; 0 where there is none.
    fn value(self) -> u64
        ensures { result ≡ value_of_sum (sum_of self) }
    {
        match self {
            Total::Value(value) => value,
            Total::LeavesRange => 0,
            Total::HasNoValue => 0,
        }
    }
}

// A sum with one more number, if it stays within the range of constants.
fn next_sum(minus: bool, sum: u64, n: u64) -> Option<u64>
    ensures { result ≡ next_sum minus sum n }
{
    if minus {
        sum.checked_sub(n)
    } else {
        sum.checked_add(n)
    }
}

impl Checker {
    // The sums from the left.
    fn sum(&self, ints: &[PlacedInt]) -> Total
        ensures { sum_of result ≡ sum_from self.now.scope 0 ints.now }
    {
        let mut sum = 0;
        for int in ints {
            let Some(n) = self.value(int) else {
                return Total::HasNoValue;
            };
            let Some(next) = next_sum(int.minus, sum, n) else {
                return Total::LeavesRange;
            };
            sum = next;
        }
        Total::Value(sum)
    }

    // Reports a sum that leaves the range of constants.
    fn check_sum(&mut self, at: At, total: Total)
        ensures { self.new ≡ with_faults self.old (faults_of_sum at (sum_of total)) }
    {
        match total {
            Total::Value(_) => {}
            Total::LeavesRange => self.report(Fault::OutOfRange(at)),
            Total::HasNoValue => {}
        }
    }

    // Reports the names of a constant's sum that are unknown or no constants.
    fn check_ints(&mut self, ints: &[PlacedInt]) -> Result<(), NoMemory>
        ensures { OnOk result (self.new ≡ with_faults self.old (flat_map (faults_of_placed self.old.scope) ints.now)) }
    {
        for int in ints {
            self.check_int(int)?;
        }
        Ok(())
    }

    /// A constant where it is declared: what is wrong with it, and its value.
    pub fn constant(&mut self, at: At, name: &Name, ints: &[PlacedInt]) -> Result<u64, NoMemory>
        ensures state { OnOk result (self.new ≡ with_faults self.old
            (faults_of_repeat at name.now (declared_names self.old.scope)
            ++ (faults_of_sum at (sum_from self.old.scope 0 ints.now) ++ flat_map (faults_of_placed self.old.scope) ints.now))) }
        ensures value { IfOk result (λ value. value ≡ value_of_sum (sum_from self.old.scope 0 ints.now)) }
    {
        self.check_declared(at, name)?;
        let total = self.sum(ints);
        self.check_sum(at, total);
        self.check_ints(ints)?;
        Ok(total.value())
    }
}
