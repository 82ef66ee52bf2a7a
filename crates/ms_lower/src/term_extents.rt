ghost use Rattle.ms_logic_core.specs.Size.{extent_of_number, extent_of_set, extents_of_elements};
ghost use Rattle.ms_logic.specs.View.{set_term_of, term_of, terms};
ghost use Rattle.ms_lower.specs.Counted.{counted};
ghost use Rattle.std.specs.Prelude.{◌≡◌, ◌∷◌, [], ◌<◌, map};

use crate::counted::{Counted, NO_PARTS, above, both};
use ms_logic::{Term1, Term2};

/// The size and the depth of a term, or none where it is deeper than a limit.
#[cycle(terms)]
pub fn count_number(term: &Term1, limit: u32) -> Option<Counted>
    ensures { result ≡ counted limit (extent_of_number (term_of term.now) ∷ []) }
{
    let below = limit.checked_sub(1)?;
    match term {
        Term1::Var(_) | Term1::Number(_) => above(Some(NO_PARTS)),
        Term1::Plus(term, _) | Term1::Minus(term, _) => above(count_number(term.get(), below)),
        Term1::Min(set) | Term1::Max(set) => above(count_set(set.get(), below)),
    }
}

/// The size and the depth of a term that stands for a set, likewise.
#[cycle(terms)]
pub fn count_set(term: &Term2, limit: u32) -> Option<Counted>
    ensures { result ≡ counted limit (extent_of_set (set_term_of term.now) ∷ []) }
{
    let below = limit.checked_sub(1)?;
    match term {
        Term2::Var(_) | Term2::EmptySet | Term2::Whole | Term2::Pconst(_) => above(Some(NO_PARTS)),
        Term2::Literal(elements) => above(count_elements(elements.slice(), below)),
        Term2::Union(left, right) | Term2::Inter(left, right) | Term2::Minus(left, right) => {
            let left = count_set(left.get(), below);
            above(both(left, count_set(right.get(), below)))
        }
        Term2::Up(set, _) | Term2::Down(set, _) => above(count_set(set.get(), below)),
    }
}

#[cycle(terms)]
fn count_elements(elements: &[Term1], limit: u32) -> Option<Counted>
    ensures { result ≡ counted limit (extents_of_elements (terms (map term_of elements.now))) }
{
    let mut counted = Some(NO_PARTS);
    for element in elements {
        let one = count_number(element, limit)?;
        counted = both(counted, Some(one));
    }
    counted
}
