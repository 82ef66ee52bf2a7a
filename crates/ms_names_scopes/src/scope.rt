ghost use Rattle.ms_names_rules.specs.Before.{with_names};
ghost use Rattle.ms_names_rules.specs.Scope.{bind, without_exports, under_parts};
ghost use Rattle.ms_parse_grammar.specs.View.{parts_of};
ghost use Rattle.ms_names_scopes.specs.inner.Found.{unbound};
ghost use Rattle.std.specs.Prelude.{◌≡◌, IfOk, OnOk};

use crate::checker::Checker;
use crate::name::small;
use ms_list::{Name, NoMemory};
use ms_logic::{LetPart, Order};
use ms_names_rules::Meaning;

impl Checker {
    /// Numbers so many names, and gives the number of the first.
    pub fn number_names(&mut self, count: usize) -> Result<u32, NoMemory>
        ensures state { OnOk result (self.new ≡ record self.old { before = with_names self.old.before count }) }
        ensures first { IfOk result (λ first. first ≡ self.old.before.next) }
    {
        let first = self.next;
        let count = small(count)?;
        let Some(next) = first.checked_add(count) else {
            return Err(NoMemory);
        };
        self.next = next;
        Ok(first)
    }

    /// No export may stand from here on. It gives whether one might.
    pub fn forbid_exports(&mut self) -> bool
        ensures state { self.new ≡ record self.old { scope = without_exports self.old.scope } }
        ensures was { result ≡ self.old.scope.exports_allowed }
    {
        let allowed = self.exports_allowed;
        self.exports_allowed = false;
        allowed
    }

    /// Whether an export may stand from here on.
    pub fn allow_exports(&mut self, allowed: bool)
        ensures { self.new ≡ record self.old { scope = record self.old.scope { exports_allowed = allowed } } }
    {
        self.exports_allowed = allowed;
    }

    /// One more name, which hides an outer one.
    #[inline(never)]
    pub fn bind(&mut self, name: &Name, meaning: Meaning) -> Result<(), NoMemory>
        ensures { OnOk result (self.new ≡ record self.old { scope = bind name.now meaning self.old.scope }) }
    {
        self.names.bind(name, meaning)
    }

    /// Without the innermost names, so many.
    pub fn unbind(&mut self, count: usize)
        ensures { self.new ≡ unbound count self.old }
    {
        self.names.unbind_all(count);
    }

    /// Binds the names of a `let`, whose numbers go on from the first.
    #[inline(never)]
    pub fn bind_parts(
        &mut self,
        first: u32,
        order: Order,
        parts: &[LetPart],
    ) -> Result<(), NoMemory>
        ensures { OnOk result (self.new ≡ record self.old { scope = under_parts self.old.scope first order (parts_of parts.now) }) }
    {
        let mut x = first;
        for part in parts {
            self.bind(&part.name, Meaning::Variable(x, order))?;
            let Some(next) = x.checked_add(1) else {
                return Err(NoMemory);
            };
            x = next;
        }
        Ok(())
    }
}
