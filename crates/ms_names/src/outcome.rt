ghost use Rattle.ms_names_rules.specs.Declarations.{after_declaration, faults_of_title, title_in, with_title};
ghost use Rattle.ms_parse_grammar.specs.View.{declaration_of};
ghost use Rattle.ms_names_scopes.specs.declared.taken.Taken.{Taken};
ghost use Rattle.ms_names_scopes.specs.inner.Declaration.{known_at, told};
ghost use Rattle.ms_names_scopes.specs.inner.Found.{with_faults};
ghost use Rattle.ms_names.specs.inner.Outcome.{declared_in, made_in, outcome_of};
ghost use Rattle.std.specs.Prelude.{◌≡◌, [], IfOk, OnOk};

use crate::declare::{
    declare_constant, declare_default, declare_formula, declare_globals, declare_predicate,
};
use ms_list::NoMemory;
use ms_logic::{Decl, Formula, Param, Predicate};
use ms_names_scopes::{Checker, Seen, Taken};

/// What a declaration gave. Nothing comes of what has a fault.
#[derive(Drop)]
pub(crate) enum Outcome {
    Globals(Option<Vec<Param>>),
    Predicate(Option<Predicate>),
    Formula(Option<Formula>),
    Nothing,
}

// A declaration by its kind, where the globals before it are so many.
fn kind(checker: &mut Checker, count: u32, decl: &Decl) -> Result<Outcome, NoMemory>
    requires { checker.old.reads ≡ [] }
    ensures state { OnOk result ((taken : Taken)
        → checker.new ≡ told checker.old (known_at checker.old count taken) (declaration_of decl.now) checker.new.reads) }
    ensures value { IfOk result (λ made. outcome_of made ≡ made_in checker.old.scope count checker.old.before (declaration_of decl.now)) }
{
    match decl {
        Decl::Vars(bounds) => {
            let made = declare_globals(checker, count, bounds.slice())?;
            Ok(Outcome::Globals(made))
        }
        Decl::Const(at, name, ints) => {
            declare_constant(checker, *at, name, ints.slice())?;
            Ok(Outcome::Nothing)
        }
        Decl::Pred(_, at, name, bounds, body) => {
            let made = declare_predicate(checker, *at, name, bounds.slice(), body)?;
            Ok(Outcome::Predicate(made))
        }
        Decl::Include(_, _) => Ok(Outcome::Nothing),
        Decl::Default(order, name, body) => {
            let made = declare_default(checker, *order, name, body)?;
            Ok(Outcome::Predicate(made))
        }
        Decl::Formula(e) => {
            let made = declare_formula(checker, e)?;
            Ok(Outcome::Formula(made))
        }
        Decl::Goal(_, _, e) => {
            let made = declare_formula(checker, e)?;
            Ok(Outcome::Formula(made))
        }
    }
}

// Reports the title of a goal that an earlier goal has, and notes it.
fn check_title(checker: &mut Checker, titles: &mut Seen, decl: &Decl) -> Result<(), NoMemory>
    ensures state { OnOk result (checker.new ≡ with_faults checker.old (faults_of_title titles.old (title_in (declaration_of decl.now)))) }
    ensures titles { OnOk result (titles.new ≡ with_title titles.old (title_in (declaration_of decl.now))) }
{
    match decl {
        Decl::Goal(at, title, _) => checker.check_title(*at, title, titles),
        Decl::Vars(_) => Ok(()),
        Decl::Const(..) => Ok(()),
        Decl::Pred(..) => Ok(()),
        Decl::Include(..) => Ok(()),
        Decl::Default(..) => Ok(()),
        Decl::Formula(_) => Ok(()),
    }
}

/// A declaration: its first fault, what it reads and uses, what is known after it, and what it gave.
pub(crate) fn declare(
    checker: &mut Checker,
    count: u32,
    taken: &mut Taken,
    decl: &Decl,
) -> Result<Outcome, NoMemory>
    ensures state { OnOk result (checker.new ≡ declared_in checker.old (known_at checker.old count taken.old) (declaration_of decl.now) checker.new.reads) }
    ensures files { OnOk result (taken.new.files ≡ (after_declaration (known_at checker.old count taken.old) (declaration_of decl.now)).files) }
    ensures titles { OnOk result (taken.new.titles ≡ with_title taken.old.titles (title_in (declaration_of decl.now))) }
    ensures value { IfOk result (λ made. outcome_of made ≡ made_in checker.old.scope count checker.old.before (declaration_of decl.now)) }
{
    checker.begin();
    check_title(checker, &mut taken.titles, decl)?;
    let from = checker.exports_so_far();
    let made = kind(checker, count, decl)?;
    checker.check_exports(from, &mut taken.files)?;
    Ok(made)
}
