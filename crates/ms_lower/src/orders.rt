ghost use Rattle.std.specs.Prelude.{◌≡◌, map, IfOk};

use ms_list::{List, NoMemory, push};
use ms_logic::{Global, Order};
use std::alloc::Global as Allocator;

/// The orders of the globals.
pub fn orders(alloc: Allocator, globals: &[Global]) -> Result<List<Order>, NoMemory>
    ensures { IfOk result (λ orders. orders ≡ map (λ g. g.order) globals.now) }
{
    let mut orders = List::new(alloc);
    for global in globals {
        push(&mut orders, global.order)?;
    }
    Ok(orders)
}
