ghost use Rattle.ms_names_rules.specs.Declarations.{declared_names, faults_of_title};
ghost use Rattle.ms_names_rules.specs.Rules.{faults_of_bounds, faults_of_parts, faults_of_repeat};
ghost use Rattle.ms_parse_grammar.specs.View.{variables_of, parts_of};
ghost use Rattle.ms_names_rules.specs.declared.fault.Fault.TheVariants.{NamedTwice};
ghost use Rattle.ms_names_scopes.specs.inner.Found.{with_faults};
ghost use Rattle.std.specs.Prelude.{◌≡◌, ◌∷◌, [], OnOk, Some};

use crate::checker::Checker;
use crate::memory::name_text;
use crate::seen::Seen;
use ms_list::{At, Name, NoMemory, Text};
use ms_logic::{Bound, LetPart};
use ms_names_rules::Fault;

impl Checker {
    /// Reports a name that stands twice.
    pub(crate) fn report_twice(&mut self, at: At, name: &Name) -> Result<(), NoMemory>
        ensures { OnOk result (self.new ≡ with_faults self.old (NamedTwice at name.now ∷ [])) }
    {
        let text = name_text(self.alloc, name)?;
        self.report(Fault::NamedTwice(at, text));
        Ok(())
    }

    /// Reports a name that is declared before.
    pub fn check_declared(&mut self, at: At, name: &Name) -> Result<(), NoMemory>
        ensures { OnOk result (self.new ≡ with_faults self.old (faults_of_repeat at name.now (declared_names self.old.scope))) }
    {
        if self.meaning(name).is_some() {
            self.report_twice(at, name)?;
        }
        Ok(())
    }

    /// Reports a name that stands before in its list, and notes it.
    pub(crate) fn check_repeat(
        &mut self,
        at: At,
        name: &Name,
        seen: &mut Seen,
    ) -> Result<(), NoMemory>
        ensures state { OnOk result (self.new ≡ with_faults self.old (faults_of_repeat at name.now seen.old)) }
        ensures seen { OnOk result (seen.new ≡ name.now ∷ seen.old) }
    {
        if seen.contains(name) {
            self.report_twice(at, name)?;
        }
        seen.add(name)
    }

    /// Reports the title of a goal that an earlier goal has, and notes it.
    pub fn check_title(&mut self, at: At, title: &Text, titles: &mut Seen) -> Result<(), NoMemory>
        ensures state { OnOk result (self.new ≡ with_faults self.old (faults_of_title titles.old (Some (record { at = at; text = title.now })))) }
        ensures titles { OnOk result (titles.new ≡ title.now ∷ titles.old) }
    {
        let name = Name::new(self.alloc, title.text())?;
        self.check_repeat(at, &name, titles)
    }

    /// Reports the names that stand twice in a list of variables or parameters.
    pub fn check_bounds(&mut self, bounds: &[Bound]) -> Result<(), NoMemory>
        ensures { OnOk result (self.new ≡ with_faults self.old (faults_of_bounds [] (variables_of bounds.now))) }
    {
        let mut seen = Seen::new(self.alloc);
        for bound in bounds {
            self.check_repeat(bound.at, &bound.name, &mut seen)?;
        }
        Ok(())
    }

    /// Reports the names that stand twice in a `let`.
    #[inline(never)]
    pub fn check_parts(&mut self, parts: &[LetPart]) -> Result<(), NoMemory>
        ensures { OnOk result (self.new ≡ with_faults self.old (faults_of_parts [] (parts_of parts.now))) }
    {
        let mut seen = Seen::new(self.alloc);
        for part in parts {
            self.check_repeat(part.at, &part.name, &mut seen)?;
        }
        Ok(())
    }
}
