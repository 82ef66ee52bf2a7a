//! The summands of a sum.

ghost use Rattle.ms_logic.specs.Lists.{Each};
ghost use Rattle.ms_presburger.specs.Sets.{Scope, summands_of, summands_of_part};
ghost use Rattle.ms_presburger.specs.declared.summand.Summand.TheVariants.{Shifted as Moved};
ghost use Rattle.ms_presburger.specs.inner.Scopes.{IsAsIn, IsFactorSmall};
ghost use Rattle.ms_logic.specs.FiniteSet.{one_bits};
ghost use Rattle.std.specs.Prelude.{◌≡◌, ◌++◌, map, IfOk, OnOk};

use crate::linear::Part;
use crate::scope::{Bindings, variable_of};
use crate::summand::Summand;
use ms_list::{List, NoMemory, push};
use std::alloc::Global;

/// The variable moved up by each one bit of its factor, appended.
fn append_bits(terms: &mut List<Summand>, x: u32, factor: u64) -> Result<(), NoMemory>
    ensures { OnOk result (terms.new ≡ terms.old ++ map (λ j. Moved x j) (one_bits factor)) }
{
    for j in 0..64_u64 {
        if (factor >> j) & 1 == 1 {
            push(terms, Summand::Shifted(x, j))?;
        }
    }
    Ok(())
}

/// The summands of a part, appended.
fn append_part(terms: &mut List<Summand>, bindings: &Bindings, part: &Part) -> Result<(), NoMemory>
    ensures made { OnOk result ((scope : Scope) → IsAsIn scope bindings.now → terms.new ≡ terms.old ++ summands_of_part scope part.now) }
    ensures small { IsFactorSmall part.now }
{
    match part {
        Part::Number(n) => {
            if *n > 0 {
                return push(terms, Summand::Constant(*n));
            }
            Ok(())
        }
        Part::Var(name) => push(terms, Summand::Shifted(variable_of(bindings, name), 0)),
        Part::Times(n, name) => append_bits(terms, variable_of(bindings, name), *n),
    }
}

/// The summands of a sum.
pub(crate) fn summands(
    alloc: Global,
    bindings: &Bindings,
    parts: &[Part],
) -> Result<List<Summand>, NoMemory>
    ensures made { IfOk result (λ made. (scope : Scope) → IsAsIn scope bindings.now → made ≡ summands_of scope parts.now) }
    ensures small { OnOk result (Each IsFactorSmall parts.now) }
{
    let mut terms = List::new(alloc);
    for part in parts {
        append_part(&mut terms, bindings, part)?;
    }
    Ok(terms)
}
