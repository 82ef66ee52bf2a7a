ghost use Rattle.ms_names_rules.specs.Declarations.{declared_names};
ghost use Rattle.ms_names_rules.specs.Rules.{faults_of_bounds, faults_of_repeat, is_name_among};
ghost use Rattle.ms_parse_grammar.specs.View.{variables_of};
ghost use Rattle.ms_names_scopes.specs.inner.Found.{with_faults};
ghost use Rattle.std.specs.Prelude.{◌≡◌, ◌∷◌, ◌++◌, OnOk};

use crate::checker::Checker;
use crate::seen::Seen;
use ms_list::{At, Name, NoMemory};
use ms_logic::Bound;

impl Checker {
    // Whether the name stands before in a list of globals, or is declared before.
    fn is_taken(&self, name: &Name, seen: &Seen) -> bool
        ensures { result ≡ is_name_among name.now (seen.now ++ declared_names self.now.scope) }
    {
        if seen.contains(name) {
            return true;
        }
        self.meaning(name).is_some()
    }

    // Reports a global's name that is taken, and notes it.
    fn check_global(&mut self, at: At, name: &Name, seen: &mut Seen) -> Result<(), NoMemory>
        ensures state { OnOk result (self.new ≡ with_faults self.old (faults_of_repeat at name.now (seen.old ++ declared_names self.old.scope))) }
        ensures seen { OnOk result (seen.new ≡ name.now ∷ seen.old) }
    {
        if self.is_taken(name, seen) {
            self.report_twice(at, name)?;
        }
        seen.add(name)
    }

    /// Reports the globals' names that are declared before, or that stand twice in their list.
    pub fn check_globals(&mut self, bounds: &[Bound]) -> Result<(), NoMemory>
        ensures { OnOk result (self.new ≡ with_faults self.old (faults_of_bounds (declared_names self.old.scope) (variables_of bounds.now))) }
    {
        let mut seen = Seen::new(self.alloc);
        for bound in bounds {
            self.check_global(bound.at, &bound.name, &mut seen)?;
        }
        Ok(())
    }
}
