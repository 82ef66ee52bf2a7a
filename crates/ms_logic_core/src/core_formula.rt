ghost use Rattle.std.specs.Prelude.{◌≡◌, ◌++◌, ◌∷◌, [], MatchOption};

use ms_list::{Boxed, List};
use ms_logic::{Mode, Order, Quant};

/// A relation between variables alone. Every atom is made of these.
#[derive(Clone, Copy)]
pub enum Basic {
    /// `a` is true.
    Truth(u32),
    /// `x = n`
    Number(u32, u64),
    /// `x = y + n`
    Plus(u32, u32, u64),
    /// `x < y`
    Less(u32, u32),
    /// `x in S`
    Member(u32, u32),
    /// `S sub T`
    Sub(u32, u32),
    /// `S = T union U`
    Union(u32, u32, u32),
    /// `S = T inter U`
    Inter(u32, u32, u32),
    /// `S = T \ U`
    Diff(u32, u32, u32),
    /// `S = T + n`
    Up(u32, u32, u64),
    /// `S = T - n`
    Down(u32, u32, u64),
    /// `x = min S`
    Min(u32, u32),
    /// `x = max S`
    Max(u32, u32),
    /// `S = pconst(n)`
    Bits(u32, u64),
}

/// A formula without terms, calls and defaults.
pub enum Core {
    True,
    False,
    Basic(Basic),
    Not(Boxed<Core>),
    And(List<Core>),
    Or(List<Core>),
    Implies(Boxed<Core>, Boxed<Core>),
    Iff(Boxed<Core>, Boxed<Core>),
    Restrict(Boxed<Core>),
    /// The number of an import, and the variable for each variable of its file.
    Import(u32, List<u32>),
    /// The variable, its restriction and the body.
    Bind(Quant, Order, u32, Option<Boxed<Core>>, Boxed<Core>),
}

/// A formula with a rising list of variables, its free ones among them.
#[derive(Drop)]
pub struct Root {
    pub variables: List<u32>,
    pub core: Core,
}

/// A source as core formulas: root 0 is its main formula, and the others are its exports.
#[derive(Drop)]
pub struct Lowered {
    pub mode: Mode,
    pub size: u64,
    pub depth: u32,
    pub roots: List<Root>,
    /// The order of each variable, by its number.
    pub orders: List<Order>,
}

// A list without its last item, and that item, where it has one.
fn split_last<T>(items: List<T>) -> (List<T>, Option<T>)
    ensures { MatchOption result.1 ((items ≡ []) × (result.0 ≡ [])) (λ last. items ≡ result.0 ++ last ∷ []) }
{
    let mut items = items.into_vec();
    let last = items.pop();
    (List::from(items), last)
}

// What is last in a formula is let go in the same call, so a list of variables takes no stack, nor do the names of a `let`.
impl Drop for Core {
    #[cycle(core_drop)]
    #[tactic(auto, using(crate::proofs::Letting::fewer))]
    fn drop(mut self) {
        loop {
            match self {
                Core::Not(body) => self = body.into_inner(),
                Core::Restrict(body) => self = body.into_inner(),
                Core::Implies(left, right) => {
                    drop(left);
                    self = right.into_inner();
                }
                Core::Iff(left, right) => {
                    drop(left);
                    self = right.into_inner();
                }
                Core::Bind(_, _, _, domain, body) => {
                    drop(domain);
                    self = body.into_inner();
                }
                Core::And(operands) => {
                    let (others, last) = split_last(operands);
                    drop(others);
                    match last {
                        None => return,
                        Some(last) => self = last,
                    }
                }
                Core::Or(operands) => {
                    let (others, last) = split_last(operands);
                    drop(others);
                    match last {
                        None => return,
                        Some(last) => self = last,
                    }
                }
                Core::Import(_, variables) => return drop(variables),
                Core::Basic(_) => return,
                Core::True => return,
                Core::False => return,
            }
        }
    }
}
