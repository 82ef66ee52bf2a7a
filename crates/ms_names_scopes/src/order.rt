ghost use Rattle.ms_names_rules.specs.Order.{order_of};
ghost use Rattle.ms_names_rules.specs.Rules.{faults_of_order};
ghost use Rattle.ms_parse_grammar.specs.View.{expression_of};
ghost use Rattle.ms_names_scopes.specs.inner.Found.{with_faults};
ghost use Rattle.std.specs.Prelude.{◌≡◌};

use crate::checker::Checker;
use ms_logic::{Expr, Form, Order};
use ms_names_rules::{Fault, Wanted};

impl Checker {
    /// The order of an expression, seen from its form. It has none by an unknown name.
    pub fn order(&self, e: &Expr) -> Option<Order>
        ensures { result ≡ order_of self.now.scope (expression_of e.now) }
    {
        match &e.form {
            Form::Name(name) => match self.meaning(name) {
                None => None,
                Some(meaning) => Some(meaning.order()),
            },
            Form::Call(name, _) => match self.meaning(name) {
                None => None,
                Some(_) => Some(Order::Zero),
            },
            Form::Paren(inner) => self.order(inner.get()),
            Form::Shift(inner, _) => self.order(inner.get()),
            Form::Number(_) | Form::Min(_) | Form::Max(_) => Some(Order::One),
            Form::Whole | Form::EmptySet | Form::Pconst(_) | Form::Literal(_) => Some(Order::Two),
            Form::Union(_, _) | Form::Inter(_, _) | Form::Minus(_, _) => Some(Order::Two),
            _ => Some(Order::Zero),
        }
    }

    // Reports an expression whose order is not the wanted one.
    fn check_wanted(&mut self, wanted: Wanted, e: &Expr)
        ensures { self.new ≡ with_faults self.old (faults_of_order self.old.scope wanted (expression_of e.now)) }
    {
        if !wanted.fits(self.order(e)) {
            self.report(Fault::WrongOrder(e.at));
        }
    }

    /// Reports an expression whose order is not the wanted one. Where any order will do, none is asked for: so brackets in one another
    /// are looked through once.
    #[inline(never)]
    pub fn check_order(&mut self, wanted: Wanted, e: &Expr)
        ensures { self.new ≡ with_faults self.old (faults_of_order self.old.scope wanted (expression_of e.now)) }
    {
        match wanted {
            Wanted::Anything => {}
            _ => self.check_wanted(wanted, e),
        }
    }
}
