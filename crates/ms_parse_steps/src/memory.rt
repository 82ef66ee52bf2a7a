ghost use Rattle.std.specs.Prelude.{◌≡◌, ◌∷◌, ◌++◌, [], IfOk, IfErr, OnOk};
ghost use Rattle.ms_parse_steps.specs.declared.stop.Stop.TheVariants.{Memory};

use crate::stop::Stop;
use ms_list::{Boxed, List};
use std::alloc::Global;

/// The value on the heap.
pub fn boxed<T: Drop>(alloc: Global, value: T) -> Result<Boxed<T>, Stop>
    ensures ok { IfOk result (λ made. made ≡ value) }
    ensures err { IfErr result (λ stop. stop ≡ Memory) }
{
    match Boxed::new(alloc, value) {
        Ok(made) => Ok(made),
        Err(_) => Err(Stop::Memory),
    }
}

/// Appends the item, which is dropped where memory is refused.
pub fn push<T: Drop>(list: &mut List<T>, item: T) -> Result<(), Stop>
    ensures ok { OnOk result (list.new ≡ list.old ++ item ∷ []) }
    ensures err { IfErr result (λ stop. stop ≡ Memory) }
{
    match list.push(item) {
        Ok(()) => Ok(()),
        Err(_) => Err(Stop::Memory),
    }
}

/// The list, with room for one item where it has none: most lists of variables have one.
pub fn with_room<T: Drop>(list: List<T>) -> Result<List<T>, Stop>
    ensures ok { IfOk result (λ made. made ≡ list) }
    ensures err { IfErr result (λ stop. stop ≡ Memory) }
{
    if !list.is_empty() {
        return Ok(list);
    }
    let mut items = list.into_vec();
    match items.reserve_exact(1) {
        Ok(()) => Ok(List::from(items)),
        Err(_) => Err(Stop::Memory),
    }
}
