ghost use Rattle.ms_list.specs.declared.at.At.{At};
ghost use Rattle.ms_logic.specs.View.{argument_of};
ghost use Rattle.ms_names_rules.specs.Reads.{readings_of_name};
ghost use Rattle.ms_names_rules.specs.Rules.{faults_of_name};
ghost use Rattle.ms_names_rules.specs.Scope.{meaning_of};
ghost use Rattle.ms_parse_grammar.specs.Tree.{pconst, atom};
ghost use Rattle.ms_names_rules.specs.Typed.{typed, typed_name};
ghost use Rattle.ms_names_scopes.specs.inner.Found.{formed, noted};
ghost use Rattle.std.specs.Option.{option_map};
ghost use Rattle.std.specs.Prelude.{◌≡◌, IfOk, OnOk};

use ms_list::{At, List, Name, NoMemory};
use ms_logic::{Arg, Formula, PlacedInt, Term1};
use ms_names_rules::{Fault, Meaning, Reading};
use ms_names_scopes::{Checker, copy_name, small};
use ms_names_typing::{pconst, variable};

/// A name by itself: what is wrong with it, what it reads and what it becomes.
#[inline(never)]
pub(crate) fn lone_name(checker: &mut Checker, at: At, name: &Name) -> Result<Option<Arg>, NoMemory>
    ensures state { OnOk result (checker.new ≡ noted checker.old
        (faults_of_name at name.now (meaning_of checker.old.scope name.now))
        (readings_of_name (meaning_of checker.old.scope name.now))) }
    ensures value { IfOk result (λ value. option_map argument_of value ≡ typed_name (meaning_of checker.old.scope name.now)) }
{
    match checker.meaning(name) {
        None => {
            let name = copy_name(checker.alloc, name)?;
            checker.report(Fault::UnknownName(at, name));
            Ok(None)
        }
        Some(Meaning::Variable(x, order)) => {
            let (x, order) = (*x, *order);
            checker.read(Reading::Variable(x))?;
            Ok(Some(variable(x, order)))
        }
        Some(Meaning::Constant(value)) => {
            let value = *value;
            checker.check_number(at, value);
            Ok(Some(Arg::One(Term1::Number(value))))
        }
        Some(Meaning::Predicate(number, parameters)) => {
            let number = *number;
            let wanted = small(parameters.len())?;
            checker.read(Reading::Predicate(number))?;
            if wanted == 0 {
                return Ok(Some(Arg::Zero(Formula::Call(number, List::new(checker.alloc)))));
            }
            let name = copy_name(checker.alloc, name)?;
            checker.report(Fault::WrongCount(at, name, 0, wanted));
            Ok(None)
        }
    }
}

/// `pconst` of a number or of the name of a constant, likewise.
#[inline(never)]
pub(crate) fn lone_pconst(checker: &mut Checker, int: &PlacedInt) -> Result<Option<Arg>, NoMemory>
    ensures state { (at : At) → OnOk result (checker.new ≡ formed checker.old (atom at (pconst int.now))) }
    ensures value { (at : At) → IfOk result (λ value. option_map argument_of value ≡ typed checker.old.scope checker.old.before (atom at (pconst int.now))) }
{
    checker.check_int(int)?;
    Ok(pconst(checker.value(int)))
}
