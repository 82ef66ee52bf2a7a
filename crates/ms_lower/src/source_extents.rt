ghost use Rattle.ms_logic_core.specs.Size.{Extent};
ghost use Rattle.ms_lower.specs.Counted.{counted, deepest};
ghost use Rattle.ms_lower.specs.inner.Extents.{AreExtents, known_extents};
ghost use Rattle.ms_lower.specs.TooDeep.{IsFound, Part, parts_under};
ghost use Rattle.std.specs.Prelude.{◌≡◌, ◌∷◌, [], ◌++◌, List};

use crate::called::Extents;
use crate::counted::{Counted, DEEPEST, NO_PARTS, sum};
use crate::extents::count_formula;
use crate::predicate_extents::count_domain;
use ms_list::At;
use ms_logic::{Global, Placed};

/// A declaration that is too deep: its number and its place.
#[derive(Clone, Copy)]
pub struct Deep {
    pub item: u32,
    pub at: At,
}

/// One part more, which has a count where it is not too deep.
fn with_part(
    found: Result<Counted, Deep>,
    count: Option<Counted>,
    declared: Deep,
) -> Result<Counted, Deep>
    ensures { (parts : List Part) → (extents : List Extent) → IsFound parts found → count ≡ counted deepest extents →
        IsFound (parts ++ (record { item = declared.item; at = declared.at; extents = extents }) ∷ []) result }
{
    match (found, count) {
        (Ok(found), Some(count)) => Ok(sum(found, count)),
        (Ok(_), None) => Err(declared),
        (Err(deep), Some(_)) => Err(deep),
        (Err(deep), None) => Err(if deep.item <= declared.item {
            deep
        } else {
            declared
        }),
    }
}

/// The size and the depth of the parts of a source, its globals' restrictions and its formulas; or the first declaration that
/// is too deep.
pub fn count_source(
    known: &Extents,
    globals: &[Global],
    formulas: &[Placed],
) -> Result<Counted, Deep>
    requires { AreExtents known.now }
    ensures { IsFound (parts_under (known_extents known.now) globals.now formulas.now) result }
{
    let mut found = Ok(NO_PARTS);
    for global in globals {
        let declared = Deep {
            item: global.item,
            at: global.at,
        };
        found = with_part(found, count_domain(known, &global.domain), declared);
    }
    for placed in formulas {
        let declared = Deep {
            item: placed.item,
            at: placed.at,
        };
        found = with_part(
            found,
            count_formula(known, &placed.formula, DEEPEST),
            declared,
        );
    }
    found
}
