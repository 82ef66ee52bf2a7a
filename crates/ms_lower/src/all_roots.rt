ghost use Rattle.ms_lower.specs.NumberedRoots.{all_roots, export_roots, globals_over, renumbered_root, root_of, seen_over};
ghost use Rattle.std.specs.Prelude.{◌≡◌, [], length, map, IfOk};

use crate::exports::{joined, roots};
use crate::goal_roots::goal_roots;
use crate::main_root::main_root;
use crate::scope::{Named, Scope};
use crate::tables::Tables;
use ms_list::{List, NoMemory, push};
use ms_logic::{Checked, Global};
use ms_logic_core::Root;

// The globals, which all formulas see.
fn see_globals(tables: &Tables, globals: &[Global]) -> Result<Scope, NoMemory>
    requires { length globals.now ≡ tables.now.globals }
    ensures { IfOk result (λ seen. seen_over [] seen ≡ globals_over 0 [] globals.now) }
{
    let mut seen = Scope::new(tables.alloc);
    let mut number = 0;
    for global in globals {
        let named = Named {
            order: global.order,
            variable: number,
            name: 0,
        };
        seen.enter(named)?;
        number += 1;
    }
    Ok(seen)
}

// The roots of the exports, in the order of the source.
fn export_roots(tables: &Tables, checked: &Checked) -> Result<List<Root>, NoMemory>
    requires { length checked.now.globals ≡ tables.now.globals }
    ensures { IfOk result (λ roots. map root_of roots ≡ map (renumbered_root tables.now) (export_roots tables.now checked.now)) }
{
    let exports = checked.exports.slice();
    let mut seen = see_globals(tables, checked.globals.slice())?;
    let mut all = List::new(tables.alloc);
    for placed in checked.formulas.slice() {
        let inside = roots(tables, exports, &mut seen, &placed.formula)?;
        all = joined(all, inside)?;
    }
    Ok(all)
}

/// The main root of a source, the roots of its exports, and those of its goals.
pub fn all_roots(tables: &Tables, checked: &Checked) -> Result<List<Root>, NoMemory>
    requires globals { length checked.now.globals ≡ tables.now.globals }
    requires kept { tables.now.kept ≡ tables.now.globals }
    ensures { IfOk result (λ roots. map root_of roots ≡ map (renumbered_root tables.now) (all_roots tables.now checked.now)) }
{
    let globals = checked.globals.slice();
    let formulas = checked.formulas.slice();
    let mut main = List::new(tables.alloc);
    push(&mut main, main_root(tables, globals, formulas)?)?;
    let front = joined(main, export_roots(tables, checked)?)?;
    let goals = goal_roots(tables, globals, formulas)?;
    joined(front, goals)
}
