ghost use Rattle.ms_logic_core.specs.Orders.{order_at, order_of_rank};
ghost use Rattle.std.specs.Prelude.{◌≡◌, ◌<◌};

use ms_logic::Order;

fn order_of_rank(rank: usize) -> Order
    requires { rank < 3 }
    ensures { result ≡ order_of_rank rank }
{
    if rank == 0 {
        Order::Zero
    } else if rank == 1 {
        Order::One
    } else {
        Order::Two
    }
}

/// The order of a variable by its number, where the globals have these orders.
pub fn order_at(globals: &[Order], number: u32) -> Order
    ensures { result ≡ order_at globals.now number }
{
    let place = number as usize;
    match globals.get(place) {
        Some(order) => *order,
        None => order_of_rank((place - globals.len()) % 3),
    }
}
