use ms_list::{Boxed, List, Name};
use ms_logic::{Quant, Rel};

/// A part of a sum.
#[derive(Drop)]
pub enum Part {
    Number(u64),
    Var(Name),
    /// A number times a variable.
    Times(u64, Name),
}

/// A formula of linear arithmetic. A comparison is one of two sums.
pub enum Linear {
    True,
    False,
    Compare(Rel, List<Part>, List<Part>),
    Paren(Boxed<Linear>),
    Not(Boxed<Linear>),
    And(List<Linear>),
    Or(List<Linear>),
    Implies(Boxed<Linear>, Boxed<Linear>),
    Iff(Boxed<Linear>, Boxed<Linear>),
    Bind(Quant, List<Name>, Boxed<Linear>),
}

// What is last in a formula is let go in the same call, so nested brackets take no stack.
impl Drop for Linear {
    fn drop(mut self) {
        loop {
            match self {
                Linear::Paren(body) => self = body.into_inner(),
                Linear::Not(body) => self = body.into_inner(),
                Linear::Bind(_, names, body) => {
                    drop(names);
                    self = body.into_inner();
                }
                Linear::Implies(left, right) => {
                    drop(left);
                    self = right.into_inner();
                }
                Linear::Iff(left, right) => {
                    drop(left);
                    self = right.into_inner();
                }
                Linear::And(operands) => return drop(operands),
                Linear::Or(operands) => return drop(operands),
                Linear::Compare(_, left, right) => {
                    drop(left);
                    return drop(right);
                }
                Linear::True => return,
                Linear::False => return,
            }
        }
    }
}

/// A formula with its free names, each once, by their first free places.
#[derive(Drop)]
pub struct Problem {
    pub names: List<Name>,
    pub formula: Linear,
}
