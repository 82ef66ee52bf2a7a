ghost use Rattle.std.specs.Prelude.{◌≡◌, map, IfOk};
ghost use Rattle.ms_logic_words.specs.Content.{is_truth_value};
ghost use Rattle.ms_cert.specs.inner.Slots.{IsLayout};

use ms_dfa::FileVar;
use ms_list::{List, NoMemory, push};
use ms_logic::Order;
use std::alloc::Global;

/// Where the bits of the variables stand in a word.
#[derive(Drop)]
pub(crate) struct Layout {
    /// For each variable how many of its kind, truth values or others, stand before it.
    pub slots: List<usize>,
    /// How many truth values there are.
    pub truth: usize,
    /// How many bits a letter has.
    pub letter: usize,
}

fn is_truth_value(order: Order) -> bool
    ensures { result ≡ is_truth_value order }
{
    match order {
        Order::Zero => true,
        Order::One => false,
        Order::Two => false,
    }
}

/// Where the bits of these variables stand.
pub(crate) fn lay_out(alloc: Global, variables: &[FileVar]) -> Result<Layout, NoMemory>
    ensures { IfOk result (IsLayout (map (λ variable. variable.order) variables.now)) }
{
    let mut slots = List::new(alloc);
    let mut truth = 0usize;
    let mut letter = 0usize;
    for variable in variables {
        if is_truth_value(variable.order) {
            push(&mut slots, truth)?;
            truth += 1;
        } else {
            push(&mut slots, letter)?;
            letter += 1;
        }
    }
    Ok(Layout {
        slots,
        truth,
        letter,
    })
}
