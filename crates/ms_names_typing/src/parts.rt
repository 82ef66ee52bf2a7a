//! Parts of an expression, where they have become something: on the heap, or behind others in a list.

ghost use Rattle.ms_names_rules.specs.Typed.{both};
ghost use Rattle.std.specs.Prelude.{◌≡◌, ◌∷◌, ◌++◌, [], IfOk};

use ms_list::{Boxed, List, NoMemory, on_heap, push};
use std::alloc::Global;

/// What a part became, on the heap.
pub(crate) fn boxed<T: Drop>(alloc: Global, value: Option<T>) -> Result<Option<Boxed<T>>, NoMemory>
    ensures { IfOk result (λ made. made ≡ value) }
{
    match value {
        None => Ok(None),
        Some(value) => Ok(Some(on_heap(alloc, value)?)),
    }
}

/// What both sides became, on the heap.
pub(crate) fn both_boxed<T: Drop>(
    alloc: Global,
    left: Option<T>,
    right: Option<T>,
) -> Result<Option<(Boxed<T>, Boxed<T>)>, NoMemory>
    ensures { IfOk result (λ made. made ≡ both (λ l r. (l, r)) left right) }
{
    let Some(left) = boxed(alloc, left)? else {
        return Ok(None);
    };
    let Some(right) = boxed(alloc, right)? else {
        return Ok(None);
    };
    Ok(Some((left, right)))
}

/// A part behind those before it, where all became something.
pub(crate) fn one_more<T: Drop>(
    made: Option<List<T>>,
    item: Option<T>,
) -> Result<Option<List<T>>, NoMemory>
    ensures { IfOk result (λ list. list ≡ both (λ front x. front ++ x ∷ []) made item) }
{
    let Some(mut list) = made else {
        return Ok(None);
    };
    let Some(item) = item else {
        return Ok(None);
    };
    push(&mut list, item)?;
    Ok(Some(list))
}
