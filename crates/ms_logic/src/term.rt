use ms_list::{Boxed, List};

/// A term that stands for a number. Variables go by their numbers.
#[cycle(terms)]
pub enum Term1 {
    Var(u32),
    Number(u64),
    Plus(Boxed<Term1>, u64),
    /// It stops at 0.
    Minus(Boxed<Term1>, u64),
    Min(Boxed<Term2>),
    Max(Boxed<Term2>),
}

/// A term that stands for a set of numbers.
#[cycle(terms)]
pub enum Term2 {
    Var(u32),
    EmptySet,
    /// All positions of the string.
    Whole,
    Literal(List<Term1>),
    /// The places of the one bits of a number.
    Pconst(u64),
    Union(Boxed<Term2>, Boxed<Term2>),
    Inter(Boxed<Term2>, Boxed<Term2>),
    Minus(Boxed<Term2>, Boxed<Term2>),
    /// Each member moved up.
    Up(Boxed<Term2>, u64),
    /// Each member moved down, those below the distance dropped.
    Down(Boxed<Term2>, u64),
}

impl Drop for Term1 {
    #[cycle(term_drop)]
    fn drop(mut self) {
        loop {
            match self {
                Term1::Plus(term, _) => self = term.into_inner(),
                Term1::Minus(term, _) => self = term.into_inner(),
                Term1::Min(set) => return drop(set),
                Term1::Max(set) => return drop(set),
                Term1::Var(_) => return,
                Term1::Number(_) => return,
            }
        }
    }
}

impl Drop for Term2 {
    #[cycle(term_drop)]
    fn drop(mut self) {
        loop {
            match self {
                Term2::Union(left, right) => {
                    drop(left);
                    self = right.into_inner();
                }
                Term2::Inter(left, right) => {
                    drop(left);
                    self = right.into_inner();
                }
                Term2::Minus(left, right) => {
                    drop(left);
                    self = right.into_inner();
                }
                Term2::Up(set, _) => self = set.into_inner(),
                Term2::Down(set, _) => self = set.into_inner(),
                Term2::Literal(elements) => return drop(elements),
                Term2::Var(_) => return,
                Term2::Pconst(_) => return,
                Term2::EmptySet => return,
                Term2::Whole => return,
            }
        }
    }
}
