ghost use Rattle.std.specs.Prelude.{◌≡◌, ◌↔◌, map, IsTrue};
ghost use Rattle.ms_app.specs.Comparison.{HaveSameGlobals};

use ms_logic::{Checked, Global};

/// Whether two globals have one name and one order.
fn is_same_global(left: &Global, right: &Global) -> bool
    ensures { IsTrue result ↔ ((left.now.name ≡ right.now.name) × (left.now.order ≡ right.now.order)) }
{
    left.name.bytes() == right.name.bytes() && left.order == right.order
}

/// Whether two lists of globals have the same names and orders.
fn are_same_globals(left: &[Global], right: &[Global]) -> bool
    ensures { IsTrue result ↔ ((map (λ g. g.name) left.now ≡ map (λ g. g.name) right.now) × (map (λ g. g.order) left.now ≡ map (λ g. g.order) right.now)) }
{
    if left.len() != right.len() {
        return false;
    }
    for place in 0..left.len() {
        if !is_same_global(&left[place], &right[place]) {
            return false;
        }
    }
    true
}

/// Whether two sources have one mode and one list of globals.
pub fn have_same_globals(left: &Checked, right: &Checked) -> bool
    ensures { IsTrue result ↔ HaveSameGlobals left.now right.now }
{
    left.mode == right.mode && are_same_globals(left.globals.slice(), right.globals.slice())
}
