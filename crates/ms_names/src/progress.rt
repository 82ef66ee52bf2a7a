ghost use Rattle.ms_logic.specs.View.{declaration_of as parameter_of};
ghost use Rattle.ms_names_rules.specs.Declarations.{count_of_globals, globals_in, title_in, Title};
ghost use Rattle.ms_parse_grammar.specs.View.{variables_of, declaration_of, declared_of};
ghost use Rattle.ms_names.specs.inner.Outcome.{outcome_of};
ghost use Rattle.ms_names.specs.inner.Progress.{IsAfter, IsBeginning, IsFirstOf, IsMade, IsNext, Keeps, bounds_in, globals_with, kept_globals, known, listed_bounds};
ghost use Rattle.std.specs.Option.{option_map};
ghost use Rattle.std.specs.Prelude.{◌≡◌, ◌+◌, ◌∷◌, ◌++◌, ◌⊎◌, [], map, IfErr, IfOk, OnOk};

use crate::outcome::{Outcome, declare};
use crate::variable::next_number;
use ms_edge::Refusal;
use ms_list::{At, List, NoMemory, Text, push};
use ms_logic::{Bound, Decl, Item, Mode, Param, Placed, Predicate};
use ms_names_scopes::{Checker, Seen, Taken, copy_name, small};
use std::alloc::Global;

/// A check of a source that stands between two declarations: what it knows there, and what those before gave.
#[derive(Drop)]
pub(crate) struct Progress {
    pub(crate) alloc: Global,
    pub(crate) checker: Checker,
    pub(crate) taken: Taken,
    pub(crate) count: u32,
    pub(crate) item: u32,
    pub(crate) globals: List<ms_logic::Global>,
    pub(crate) predicates: List<Predicate>,
    pub(crate) formulas: List<Placed>,
}

// The globals that a declaration declares.
fn globals(decl: &Decl) -> &[Bound]
    ensures { variables_of result.now ≡ bounds_in (declaration_of decl.now) }
{
    match decl {
        Decl::Vars(bounds) => bounds.slice(),
        _ => &[],
    }
}

// A count and so many more.
fn more(count: u32, decl: &Decl) -> Result<u32, NoMemory>
    ensures { IfOk result (λ sum. sum ≡ count + globals_in (declaration_of decl.now)) }
{
    let here = small(globals(decl).len())?;
    match count.checked_add(here) {
        Some(sum) => Ok(sum),
        None => Err(NoMemory),
    }
}

// How many globals the declarations have.
fn count_globals(items: &[Item]) -> Result<u32, NoMemory>
    ensures { IfOk result (λ count. count ≡ count_of_globals (map declared_of items.now)) }
{
    let mut count = 0;
    for item in items {
        count = more(count, &item.decl)?;
    }
    Ok(count)
}

// Globals behind others, with their restrictions.
fn add_globals(
    alloc: Global,
    list: &mut List<ms_logic::Global>,
    at: At,
    item: u32,
    bounds: &[Bound],
    params: Vec<Param>,
) -> Result<(), NoMemory>
    ensures { OnOk result (kept_globals list.new
        ≡ kept_globals list.old ++ globals_with at item (map parameter_of params.items) (listed_bounds (variables_of bounds.now))) }
{
    let mut params = params.into_iter();
    for bound in bounds {
        let Some(param) = params.next() else {
            return Ok(());
        };
        let global = ms_logic::Global {
            at,
            item,
            order: bound.order,
            name: copy_name(alloc, &bound.name)?,
            domain: param.domain,
        };
        push(list, global)?;
    }
    Ok(())
}

// The title of a declaration that is a goal.
fn title(alloc: Global, decl: &Decl) -> Result<Option<Text>, NoMemory>
    ensures { IfOk result (λ title. title ≡ option_map (λ (t : Title). t.text) (title_in (declaration_of decl.now))) }
{
    match decl {
        Decl::Goal(_, title, _) => Ok(Some(Text::new(alloc, title.text())?)),
        Decl::Vars(_) => Ok(None),
        Decl::Const(..) => Ok(None),
        Decl::Pred(..) => Ok(None),
        Decl::Include(..) => Ok(None),
        Decl::Default(..) => Ok(None),
        Decl::Formula(_) => Ok(None),
    }
}

impl Progress {
    /// Before the first declaration. Bound names are numbered after all globals.
    pub(crate) fn begin(alloc: Global, mode: Mode, items: &[Item]) -> Result<Progress, NoMemory>
        ensures { IfOk result (λ begun. IsBeginning begun mode (map declared_of items.now)) }
    {
        let next = count_globals(items)?;
        Ok(Progress {
            alloc,
            checker: Checker::new(alloc, mode, next),
            taken: Taken {
                files: Seen::new(alloc),
                titles: Seen::new(alloc),
            },
            count: 0,
            item: 0,
            globals: List::new(alloc),
            predicates: List::new(alloc),
            formulas: List::new(alloc),
        })
    }

    // Keeps what a declaration gave.
    fn keep(&mut self, item: &Item, made: Outcome) -> Result<(), NoMemory>
        requires { IsMade (outcome_of made) }
        ensures kept { OnOk result (Keeps self.old self.new (declared_of item.now) (outcome_of made)) }
        ensures checker { OnOk result (self.new.checker ≡ self.old.checker) }
        ensures taken { OnOk result (self.new.taken ≡ self.old.taken) }
        ensures count { OnOk result (self.new.count ≡ self.old.count) }
        ensures item { OnOk result (self.new.item ≡ self.old.item) }
    {
        match made {
            Outcome::Globals(Some(params)) => add_globals(
                self.alloc,
                &mut self.globals,
                item.at,
                self.item,
                globals(&item.decl),
                params,
            ),
            Outcome::Predicate(Some(predicate)) => push(&mut self.predicates, predicate),
            Outcome::Formula(Some(formula)) => {
                let placed = Placed {
                    at: item.at,
                    item: self.item,
                    title: title(self.alloc, &item.decl)?,
                    formula,
                };
                push(&mut self.formulas, placed)
            }
            Outcome::Nothing => Ok(()),
            _ => unreachable!(),
        }
    }

    // Counts a declaration and its globals.
    fn pass(&mut self, decl: &Decl) -> Result<(), NoMemory>
        ensures { OnOk result (self.new ≡ record self.old {
          count = self.old.count + globals_in (declaration_of decl.now);
          item = self.old.item + 1;
        }) }
    {
        let count = more(self.count, decl)?;
        let item = next_number(self.item)?;
        self.count = count;
        self.item = item;
        Ok(())
    }

    // One more declaration, or its first fault.
    fn declare(&mut self, item: &Item) -> Result<(), Refusal>
        ensures next { OnOk result (IsNext self.old self.new (declared_of item.now)) }
        ensures refused { IfErr result (λ refusal. (refusal ≡ Refusal.Memory) ⊎ IsFirstOf (known self.old) (declared_of item.now ∷ []) refusal) }
    {
        let Ok(made) = declare(&mut self.checker, self.count, &mut self.taken, &item.decl) else {
            return Err(Refusal::Memory);
        };
        if let Some(fault) = self.checker.take_first() {
            return Err(fault.refusal());
        }
        let Ok(()) = self.keep(item, made) else {
            return Err(Refusal::Memory);
        };
        let Ok(()) = self.pass(&item.decl) else {
            return Err(Refusal::Memory);
        };
        Ok(())
    }

    /// More declarations, or the first fault of the first that has one.
    pub(crate) fn declare_all(&mut self, items: &[Item]) -> Result<(), Refusal>
        ensures after { OnOk result (IsAfter self.old self.new (map declared_of items.now)) }
        ensures refused { IfErr result (λ refusal. (refusal ≡ Refusal.Memory) ⊎ IsFirstOf (known self.old) (map declared_of items.now) refusal) }
    {
        for item in items {
            self.declare(item)?;
        }
        Ok(())
    }
}
