ghost use Rattle.ms_logic.specs.View.{argument_of};
ghost use Rattle.ms_names_rules.specs.Reads.{readings_of_renames, readings_of_variable};
ghost use Rattle.ms_names_rules.specs.Rules.{faults_of_renames, faults_of_repeat, faults_of_variable};
ghost use Rattle.ms_names_rules.specs.Scope.{meaning_of};
ghost use Rattle.ms_parse_grammar.specs.Tree.{imported, atom};
ghost use Rattle.ms_names_rules.specs.Typed.{typed};
ghost use Rattle.ms_names_rules.specs.Uses.{pair_of, pairs_of};
ghost use Rattle.ms_names_scopes.specs.inner.Found.{formed, noted, with_faults};
ghost use Rattle.std.specs.Option.{option_map};
ghost use Rattle.std.specs.Prelude.{◌≡◌, ◌∷◌, ◌++◌, [], IfOk, OnOk};

use crate::checker::Checker;
use crate::memory::copy_name;
use crate::seen::Seen;
use ms_list::{At, List, NoMemory, Text, push};
use ms_logic::{Arg, Formula, ImportUse, MapPair, Rename};
use ms_names_rules::{Fault, Meaning, Reading};

impl Checker {
    /// An import: what is wrong with its names, what it reads, and what it becomes.
    #[inline(never)]
    pub fn import(
        &mut self,
        at: At,
        file: &Text,
        renames: &[Rename],
    ) -> Result<Option<Arg>, NoMemory>
        ensures state { OnOk result (self.new ≡ formed self.old (atom at (imported file.now renames.now))) }
        ensures value { IfOk result (λ value. option_map argument_of value ≡ typed self.old.scope self.old.before (atom at (imported file.now renames.now))) }
    {
        let pairs = self.pairs(renames)?;
        let name = Text::new(self.alloc, file.text())?;
        let number = self.import_count;
        let Some(count) = number.checked_add(1) else {
            return Err(NoMemory);
        };
        push(&mut self.imports, ImportUse { at, name, pairs })?;
        self.import_count = count;
        Ok(Some(Arg::Zero(Formula::Import(number))))
    }

    // The pairs of an import, and what is wrong with its names.
    fn pairs(&mut self, renames: &[Rename]) -> Result<List<MapPair>, NoMemory>
        ensures state { OnOk result (self.new ≡ noted self.old
            (faults_of_renames self.old.scope [] [] renames.now)
            (readings_of_renames self.old.scope renames.now)) }
        ensures value { IfOk result (λ pairs. pairs ≡ pairs_of self.old.scope renames.now) }
    {
        let mut lefts = Seen::new(self.alloc);
        let mut rights = Seen::new(self.alloc);
        let mut pairs = List::new(self.alloc);
        for rename in renames {
            self.pair(rename, &mut lefts, &mut rights, &mut pairs)?;
        }
        Ok(pairs)
    }

    // One renaming more: what is wrong with its names, and its pair.
    fn pair(
        &mut self,
        rename: &Rename,
        lefts: &mut Seen,
        rights: &mut Seen,
        pairs: &mut List<MapPair>,
    ) -> Result<(), NoMemory>
        ensures state { OnOk result (self.new ≡ with_faults (noted
            (with_faults self.old (faults_of_repeat rename.now.at rename.now.left lefts.old))
            (faults_of_variable rename.now.at_right rename.now.right (meaning_of self.old.scope rename.now.right))
            (readings_of_variable (meaning_of self.old.scope rename.now.right)))
            (faults_of_repeat rename.now.at_right rename.now.right rights.old)) }
        ensures lefts { OnOk result (lefts.new ≡ rename.now.left ∷ lefts.old) }
        ensures rights { OnOk result (rights.new ≡ rename.now.right ∷ rights.old) }
        ensures pairs { OnOk result (pairs.new ≡ pairs.old ++ pair_of rename.now.left (meaning_of self.old.scope rename.now.right)) }
    {
        self.check_repeat(rename.at, &rename.left, lefts)?;
        self.add_pair(pairs, rename)?;
        self.check_repeat(rename.at_right, &rename.right, rights)
    }

    // One pair more, where the right name is a variable.
    fn add_pair(&mut self, pairs: &mut List<MapPair>, rename: &Rename) -> Result<(), NoMemory>
        ensures state { OnOk result (self.new ≡ noted self.old
            (faults_of_variable rename.now.at_right rename.now.right (meaning_of self.old.scope rename.now.right))
            (readings_of_variable (meaning_of self.old.scope rename.now.right))) }
        ensures pairs { OnOk result (pairs.new ≡ pairs.old ++ pair_of rename.now.left (meaning_of self.old.scope rename.now.right)) }
    {
        match self.meaning(&rename.right) {
            None => {
                let name = copy_name(self.alloc, &rename.right)?;
                self.report(Fault::UnknownName(rename.at_right, name));
            }
            Some(Meaning::Variable(x, order)) => {
                let (variable, order) = (*x, *order);
                let name = copy_name(self.alloc, &rename.left)?;
                push(&mut self.reads, Reading::Variable(variable))?;
                push(
                    pairs,
                    MapPair {
                        name,
                        variable,
                        order,
                    },
                )?;
            }
            Some(_) => self.report(Fault::WrongOrder(rename.at_right)),
        }
        Ok(())
    }
}
