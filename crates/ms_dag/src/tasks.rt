ghost use Rattle.ms_dag.specs.inner.Scope.{forms_of};
ghost use Rattle.ms_dag.specs.inner.Tasks.{above, each, plan_of, plan_of_each, share, todo_of_each};
ghost use Rattle.ms_logic_core.specs.CoreForm.{core_form_of};
ghost use Rattle.std.specs.Prelude.{◌≡◌, ◌<◌, ◌++◌, ◌∷◌, [], length, OnOk};

use ms_list::NoMemory;
use ms_logic_core::Core;

/// What is left to do on the way to the node of a formula. The last task is done first, and each leaves the children that it makes behind
/// those of the tasks before it.
#[derive(Clone, Copy)]
pub(crate) enum Task<'a> {
    /// The formula is to be shared.
    Share(&'a Core),
    /// These formulas are to be shared, one after the other.
    Each(&'a [Core]),
    /// The parts of the formula are shared, and the formula itself is to be.
    Above(&'a Core),
}

/// Puts the item behind the others. It is let go where memory is refused.
pub(crate) fn put<T: Drop>(items: &mut Vec<T>, item: T) -> Result<(), NoMemory>
    ensures { OnOk result (items.new.items ≡ items.old.items ++ item ∷ []) }
{
    match items.push(item) {
        Ok(()) => Ok(()),
        Err(_) => Err(NoMemory),
    }
}

/// Takes the last item.
pub(crate) fn take_last<T>(items: &mut Vec<T>) -> T
    requires { 0 < length items.old.items }
    ensures { items.old.items ≡ items.new.items ++ result ∷ [] }
{
    let Some(item) = items.pop() else {
        unreachable!();
    };
    item
}

fn put_share<'a>(tasks: &mut Vec<Task<'a>>, core: &'a Core) -> Result<(), NoMemory>
    ensures { OnOk result (todo_of_each tasks.new.items ≡ todo_of_each tasks.old.items ++ share (core_form_of core.now) ∷ []) }
{
    put(tasks, Task::Share(core))
}

fn put_both<'a>(
    tasks: &mut Vec<Task<'a>>,
    first: &'a Core,
    second: &'a Core,
) -> Result<(), NoMemory>
    ensures { OnOk result (todo_of_each tasks.new.items ≡ todo_of_each tasks.old.items ++ share (core_form_of second.now) ∷ share (core_form_of first.now) ∷ []) }
{
    put_share(tasks, second)?;
    put_share(tasks, first)
}

fn put_each<'a>(tasks: &mut Vec<Task<'a>>, operands: &'a [Core]) -> Result<(), NoMemory>
    ensures { OnOk result (todo_of_each tasks.new.items ≡ todo_of_each tasks.old.items ++ each (forms_of operands.now) ∷ []) }
{
    put(tasks, Task::Each(operands))
}

fn put_above<'a>(tasks: &mut Vec<Task<'a>>, core: &'a Core) -> Result<(), NoMemory>
    ensures { OnOk result (todo_of_each tasks.new.items ≡ todo_of_each tasks.old.items ++ above (core_form_of core.now) ∷ []) }
{
    put(tasks, Task::Above(core))
}

/// Plans a formula that is no import: its parts, from left to right, and then itself.
pub(crate) fn plan<'a>(tasks: &mut Vec<Task<'a>>, core: &'a Core) -> Result<(), NoMemory>
    ensures { OnOk result (todo_of_each tasks.new.items ≡ todo_of_each tasks.old.items ++ plan_of (core_form_of core.now)) }
{
    put_above(tasks, core)?;
    match core {
        Core::True => Ok(()),
        Core::False => Ok(()),
        Core::Basic(_) => Ok(()),
        Core::Import(_, _) => Ok(()),
        Core::Not(body) => put_share(tasks, body.get()),
        Core::Restrict(body) => put_share(tasks, body.get()),
        Core::And(operands) => put_each(tasks, operands.slice()),
        Core::Or(operands) => put_each(tasks, operands.slice()),
        Core::Implies(left, right) => put_both(tasks, left.get(), right.get()),
        Core::Iff(left, right) => put_both(tasks, left.get(), right.get()),
        Core::Bind(_, _, _, domain, body) => match domain {
            None => put_share(tasks, body.get()),
            Some(domain) => put_both(tasks, domain.get(), body.get()),
        },
    }
}

/// Plans a list of formulas: its first, and then the others.
pub(crate) fn plan_each<'a>(tasks: &mut Vec<Task<'a>>, operands: &'a [Core]) -> Result<(), NoMemory>
    ensures { OnOk result (todo_of_each tasks.new.items ≡ todo_of_each tasks.old.items ++ plan_of_each (forms_of operands.now)) }
{
    let Some((first, others)) = operands.split_first() else {
        return Ok(());
    };
    put_each(tasks, others)?;
    put_share(tasks, first)
}
