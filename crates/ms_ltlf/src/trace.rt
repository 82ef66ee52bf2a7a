use ms_list::{Boxed, List, Name};

/// A formula of linear temporal logic. Propositions go by their places among the names.
pub enum Ltl {
    True,
    False,
    Prop(u32),
    Paren(Boxed<Ltl>),
    Not(Boxed<Ltl>),
    Next(Boxed<Ltl>),
    WeakNext(Boxed<Ltl>),
    Eventually(Boxed<Ltl>),
    Always(Boxed<Ltl>),
    And(List<Ltl>),
    Or(List<Ltl>),
    Implies(Boxed<Ltl>, Boxed<Ltl>),
    Iff(Boxed<Ltl>, Boxed<Ltl>),
    Until(Boxed<Ltl>, Boxed<Ltl>),
    Release(Boxed<Ltl>, Boxed<Ltl>),
}

// What is last in a formula is let go in the same call, so nested brackets take no stack.
impl Drop for Ltl {
    fn drop(mut self) {
        loop {
            match self {
                Ltl::Paren(body) => self = body.into_inner(),
                Ltl::Not(body) => self = body.into_inner(),
                Ltl::Next(body) => self = body.into_inner(),
                Ltl::WeakNext(body) => self = body.into_inner(),
                Ltl::Eventually(body) => self = body.into_inner(),
                Ltl::Always(body) => self = body.into_inner(),
                Ltl::Implies(left, right) => {
                    drop(left);
                    self = right.into_inner();
                }
                Ltl::Iff(left, right) => {
                    drop(left);
                    self = right.into_inner();
                }
                Ltl::Until(left, right) => {
                    drop(left);
                    self = right.into_inner();
                }
                Ltl::Release(left, right) => {
                    drop(left);
                    self = right.into_inner();
                }
                Ltl::And(operands) => return drop(operands),
                Ltl::Or(operands) => return drop(operands),
                Ltl::True => return,
                Ltl::False => return,
                Ltl::Prop(_) => return,
            }
        }
    }
}

/// The names of propositions, and a formula over them.
#[derive(Drop)]
pub struct Trace {
    pub names: List<Name>,
    pub formula: Ltl,
}
