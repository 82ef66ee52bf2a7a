use crate::mode::{Order, Quant, Rel};
use crate::term::{Term1, Term2};
use ms_list::{Boxed, List};

/// What a parameter or a `let` name is bound to.
#[cycle(formulas)]
#[derive(Drop)]
pub enum Arg {
    Zero(Formula),
    One(Term1),
    Two(Term2),
}

/// One name of a `let` with its right side.
#[cycle(formulas)]
#[derive(Drop)]
pub struct Binding {
    pub variable: u32,
    pub value: Arg,
}

/// A formula whose names are resolved: variables, predicates, imports and exports go by their numbers.
#[cycle(formulas)]
pub enum Formula {
    True,
    False,
    Var(u32),
    Not(Boxed<Formula>),
    And(List<Formula>),
    Or(List<Formula>),
    Implies(Boxed<Formula>, Boxed<Formula>),
    Iff(Boxed<Formula>, Boxed<Formula>),
    Compare(Rel, Term1, Term1),
    CompareSets(Rel, Term2, Term2),
    /// Whether `in` or `notin`, the number and the set.
    Member(bool, Term1, Term2),
    IsEmpty(Term2),
    /// The variable, its restriction and the body.
    Bind(Quant, Order, u32, Option<Boxed<Formula>>, Boxed<Formula>),
    Let(List<Binding>, Boxed<Formula>),
    /// The number of a predicate and its arguments.
    Call(u32, List<Arg>),
    Restrict(Boxed<Formula>),
    Import(u32),
    Export(u32, Boxed<Formula>),
    /// The default restriction with a number, at a variable.
    Domain(u32, u32),
}

// What is last in a formula is let go in the same call, so a list of variables takes no stack.
impl Drop for Formula {
    #[cycle(formula_drop)]
    fn drop(mut self) {
        loop {
            match self {
                Formula::Not(body) => self = body.into_inner(),
                Formula::Restrict(body) => self = body.into_inner(),
                Formula::Export(_, body) => self = body.into_inner(),
                Formula::Implies(left, right) => {
                    drop(left);
                    self = right.into_inner();
                }
                Formula::Iff(left, right) => {
                    drop(left);
                    self = right.into_inner();
                }
                Formula::Bind(_, _, _, domain, body) => {
                    drop(domain);
                    self = body.into_inner();
                }
                Formula::Let(bindings, body) => {
                    drop(bindings);
                    self = body.into_inner();
                }
                Formula::And(operands) => return drop(operands),
                Formula::Or(operands) => return drop(operands),
                Formula::Call(_, arguments) => return drop(arguments),
                Formula::Compare(_, left, right) => {
                    drop(left);
                    return drop(right);
                }
                Formula::CompareSets(_, left, right) => {
                    drop(left);
                    return drop(right);
                }
                Formula::Member(_, number, set) => {
                    drop(number);
                    return drop(set);
                }
                Formula::IsEmpty(set) => return drop(set),
                Formula::True => return,
                Formula::False => return,
                Formula::Var(_) => return,
                Formula::Import(_) => return,
                Formula::Domain(_, _) => return,
            }
        }
    }
}
