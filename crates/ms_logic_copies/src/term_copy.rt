ghost use Rattle.std.specs.Prelude.{◌≡◌, IfOk};

use crate::made::{both, heaped};
use ms_list::{List, NoMemory, push};
use ms_logic::{Term1, Term2};
use std::alloc::Global;

/// An equal term of its own.
#[cycle(copy_term)]
pub fn copy_number(alloc: Global, term: &Term1) -> Result<Term1, NoMemory>
    ensures { IfOk result (λ made. made ≡ term.now) }
{
    match term {
        Term1::Var(variable) => Ok(Term1::Var(*variable)),
        Term1::Number(number) => Ok(Term1::Number(*number)),
        Term1::Plus(term, by) => Ok(Term1::Plus(
            heaped(alloc, copy_number(alloc, term.get()))?,
            *by,
        )),
        Term1::Minus(term, by) => Ok(Term1::Minus(
            heaped(alloc, copy_number(alloc, term.get()))?,
            *by,
        )),
        Term1::Min(set) => Ok(Term1::Min(heaped(alloc, copy_set(alloc, set.get()))?)),
        Term1::Max(set) => Ok(Term1::Max(heaped(alloc, copy_set(alloc, set.get()))?)),
    }
}

/// An equal term of its own.
#[cycle(copy_term)]
pub fn copy_set(alloc: Global, term: &Term2) -> Result<Term2, NoMemory>
    ensures { IfOk result (λ made. made ≡ term.now) }
{
    match term {
        Term2::Var(variable) => Ok(Term2::Var(*variable)),
        Term2::EmptySet => Ok(Term2::EmptySet),
        Term2::Whole => Ok(Term2::Whole),
        Term2::Literal(elements) => Ok(Term2::Literal(copy_elements(alloc, elements.slice())?)),
        Term2::Pconst(number) => Ok(Term2::Pconst(*number)),
        Term2::Union(left, right) => {
            let left = heaped(alloc, copy_set(alloc, left.get()));
            let right = heaped(alloc, copy_set(alloc, right.get()));
            let (left, right) = both(left, right)?;
            Ok(Term2::Union(left, right))
        }
        Term2::Inter(left, right) => {
            let left = heaped(alloc, copy_set(alloc, left.get()));
            let right = heaped(alloc, copy_set(alloc, right.get()));
            let (left, right) = both(left, right)?;
            Ok(Term2::Inter(left, right))
        }
        Term2::Minus(left, right) => {
            let left = heaped(alloc, copy_set(alloc, left.get()));
            let right = heaped(alloc, copy_set(alloc, right.get()));
            let (left, right) = both(left, right)?;
            Ok(Term2::Minus(left, right))
        }
        Term2::Up(set, by) => Ok(Term2::Up(heaped(alloc, copy_set(alloc, set.get()))?, *by)),
        Term2::Down(set, by) => Ok(Term2::Down(heaped(alloc, copy_set(alloc, set.get()))?, *by)),
    }
}

#[cycle(copy_term)]
fn copy_elements(alloc: Global, elements: &[Term1]) -> Result<List<Term1>, NoMemory>
    ensures { IfOk result (λ made. made ≡ elements.now) }
{
    let mut made = List::new(alloc);
    for element in elements {
        push(&mut made, copy_number(alloc, element)?)?;
    }
    Ok(made)
}
