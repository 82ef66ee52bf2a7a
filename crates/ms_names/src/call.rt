ghost use Rattle.ms_logic.specs.View.{argument_of};
ghost use Rattle.ms_names_rules.specs.inner.Lists.{arguments_of};
ghost use Rattle.ms_names_rules.specs.Scope.{meaning_of};
ghost use Rattle.ms_names_rules.specs.Typed.{typed_call};
ghost use Rattle.std.specs.Option.{option_map};
ghost use Rattle.std.specs.Prelude.{◌≡◌};

use ms_list::{List, Name};
use ms_logic::Arg;
use ms_names_rules::Meaning;
use ms_names_scopes::Checker;
use ms_names_typing::call;

/// A call, by what its arguments became.
#[inline(never)]
pub(crate) fn called(checker: &Checker, name: &Name, arguments: Option<List<Arg>>) -> Option<Arg>
    ensures { option_map argument_of result ≡ typed_call (meaning_of checker.now.scope name.now) (option_map arguments_of arguments) }
{
    match checker.meaning(name) {
        None => None,
        Some(Meaning::Variable(_, _)) => None,
        Some(Meaning::Constant(_)) => None,
        Some(Meaning::Predicate(number, _)) => call(*number, arguments),
    }
}
