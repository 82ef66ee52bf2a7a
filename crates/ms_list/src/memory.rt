ghost use Rattle.std.specs.Prelude.{◌≡◌, ◌∷◌, ◌++◌, [], IfOk, OnOk, OnErr};

use crate::boxed::Boxed;
use crate::fault::NoMemory;
use crate::list::List;
use std::alloc::Global;

/// The value on the heap. It is let go where memory is refused.
pub fn on_heap<T: Drop>(alloc: Global, value: T) -> Result<Boxed<T>, NoMemory>
    ensures { IfOk result (λ made. made ≡ value) }
{
    match Boxed::new(alloc, value) {
        Ok(made) => Ok(made),
        Err(_) => Err(NoMemory),
    }
}

/// Appends the item, which is let go where memory is refused; the list is as it was then.
pub fn push<T: Drop>(list: &mut List<T>, item: T) -> Result<(), NoMemory>
    ensures ok { OnOk result (list.new ≡ list.old ++ item ∷ []) }
    ensures err { OnErr result (list.new ≡ list.old) }
{
    match list.push(item) {
        Ok(()) => Ok(()),
        Err(_) => Err(NoMemory),
    }
}

/// Lets a value go. Where the type of a value is known, dropping it is written out on each way out of a function;
/// through this call it is not.
pub fn let_go<T: Drop>(value: T) {
    drop(value)
}
