ghost use Rattle.std.specs.Prelude.{◌≡◌, [], ◌∷◌, IfOk};
ghost use Rattle.try_built.specs.Inclusions.{IsInclusion, IsSample, orders_of_sets, root_of, three};

use ms_list::{List, NoMemory, push};
use ms_logic::{Mode, Order};
use ms_logic_core::{Basic, Core, Lowered, Root};
use std::alloc::Global;

/// The third of three inclusions between two sets.
#[derive(Clone, Copy)]
pub enum Third {
    /// The first set in the second one, as the others are.
    Alike,
    /// The second set in the first one.
    Turned,
}

fn relation(third: Third) -> Basic
    ensures { IsInclusion result }
{
    match third {
        Third::Alike => Basic::Sub(0, 1),
        Third::Turned => Basic::Sub(1, 0),
    }
}

fn operands(alloc: Global, third: Basic) -> Result<List<Core>, NoMemory>
    ensures { IfOk result (λ made. made ≡ three third) }
{
    let mut operands = List::new(alloc);
    push(&mut operands, Core::Basic(Basic::Sub(0, 1)))?;
    push(&mut operands, Core::Basic(Basic::Sub(0, 1)))?;
    push(&mut operands, Core::Basic(third))?;
    Ok(operands)
}

fn sets(alloc: Global) -> Result<List<u32>, NoMemory>
    ensures { IfOk result (λ made. made ≡ 0 ∷ 1 ∷ []) }
{
    let mut sets = List::new(alloc);
    push(&mut sets, 0)?;
    push(&mut sets, 1)?;
    Ok(sets)
}

fn orders(alloc: Global) -> Result<List<Order>, NoMemory>
    ensures { IfOk result (λ made. made ≡ orders_of_sets) }
{
    let mut orders = List::new(alloc);
    push(&mut orders, Order::Two)?;
    push(&mut orders, Order::Two)?;
    Ok(orders)
}

fn roots(alloc: Global, third: Basic) -> Result<List<Root>, NoMemory>
    ensures { IfOk result (λ made. made ≡ root_of third ∷ []) }
{
    let core = Core::And(operands(alloc, third)?);
    let variables = sets(alloc)?;
    let mut roots = List::new(alloc);
    push(&mut roots, Root { variables, core })?;
    Ok(roots)
}

/// The conjunction of the first set in the second one, twice, and a third inclusion, as the one root of a source.
pub fn inclusions(alloc: Global, third: Third) -> Result<Lowered, NoMemory>
    ensures { IfOk result IsSample }
{
    let roots = roots(alloc, relation(third))?;
    let orders = orders(alloc)?;
    Ok(Lowered {
        mode: Mode::Ws1s,
        size: 4,
        depth: 2,
        roots,
        orders,
    })
}
