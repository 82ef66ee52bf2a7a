ghost use Rattle.ms_logic.specs.View.{declaration_of};
ghost use Rattle.ms_names_rules.specs.Before.{with_names};
ghost use Rattle.ms_names_rules.specs.inner.Binder.{default_for, restricted_variable, restriction_in};
ghost use Rattle.ms_names_rules.specs.Reads.{readings_of_bounds, readings_of_default};
ghost use Rattle.ms_names_rules.specs.Rules.{faults_of_bounds};
ghost use Rattle.ms_names_rules.specs.Scope.{count_of_bounds, default_of};
ghost use Rattle.ms_parse_grammar.specs.Tree.{unrestricted};
ghost use Rattle.ms_parse_grammar.specs.View.{variable_of, variables_of};
ghost use Rattle.ms_names_scopes.specs.inner.Found.{noted};
ghost use Rattle.std.specs.Option.{option_map};
ghost use Rattle.std.specs.Prelude.{◌≡◌, [], Some, IfOk, OnOk};

use crate::checker::Checker;
use ms_list::{NoMemory, push};
use ms_logic::{Bound, Formula, Order, Param};
use ms_names_rules::Reading;

impl Checker {
    /// The default restriction of the variables of an order.
    pub(crate) fn default_of(&self, order: Order) -> Option<u32>
        ensures { result ≡ default_of self.now.scope order }
    {
        match order {
            Order::Zero => None,
            Order::One => self.default_of_numbers,
            Order::Two => self.default_of_sets,
        }
    }

    /// A variable that has no restriction of its own.
    #[inline(never)]
    pub fn unrestricted(&self, x: u32, order: Order, takes_defaults: bool) -> Param
        ensures { Some (declaration_of result) ≡ option_map (restricted_variable x order) (restriction_in takes_defaults self.now.scope self.now.before order x unrestricted) }
    {
        let default = if takes_defaults {
            self.default_of(order)
        } else {
            None
        };
        let domain = match default {
            None => None,
            Some(number) => Some(Formula::Domain(number, x)),
        };
        Param {
            order,
            variable: x,
            domain,
        }
    }

    // The default restriction that a variable takes, if it has none of its own.
    fn default_for(&self, bound: &Bound) -> Option<u32>
        ensures { result ≡ default_for self.now.scope (variable_of bound.now).order (variable_of bound.now).domain }
    {
        match &bound.domain {
            None => self.default_of(bound.order),
            Some(_) => None,
        }
    }

    // Notes that a default restriction is read, if there is one.
    fn read_default(&mut self, default: Option<u32>) -> Result<(), NoMemory>
        ensures { OnOk result (self.new ≡ noted self.old [] (readings_of_default default)) }
    {
        match default {
            None => Ok(()),
            Some(number) => push(&mut self.reads, Reading::Predicate(number)),
        }
    }

    // Notes the default restrictions that a list of variables reads.
    fn read_defaults(&mut self, bounds: &[Bound]) -> Result<(), NoMemory>
        ensures { OnOk result (self.new ≡ noted self.old [] (readings_of_bounds self.old.scope (variables_of bounds.now))) }
    {
        for bound in bounds {
            let default = self.default_for(bound);
            self.read_default(default)?;
        }
        Ok(())
    }

    /// Begins a quantifier: what is wrong with its list and what the list reads. Its variables get numbers, and the
    /// answer is the first.
    #[inline(never)]
    pub fn begin_bounds(&mut self, bounds: &[Bound]) -> Result<u32, NoMemory>
        ensures state { OnOk result (self.new ≡ record
            (noted self.old (faults_of_bounds [] (variables_of bounds.now)) (readings_of_bounds self.old.scope (variables_of bounds.now)))
            { before = with_names self.old.before (count_of_bounds (variables_of bounds.now)) }) }
        ensures first { IfOk result (λ first. first ≡ self.old.before.next) }
    {
        self.check_bounds(bounds)?;
        self.read_defaults(bounds)?;
        let first = self.number_names(bounds.len())?;
        Ok(first)
    }
}
