ghost use Rattle.std.specs.Prelude.{◌≡◌, ◌↔◌, ◌<◌, ◌^◌, IfOk, IsTrue, length};
ghost use Rattle.ms_arena.specs.declared.node.Ref.TheVariants.{Leaf, Inner};
ghost use Rattle.ms_dfa.specs.Files.{content_of_file};
ghost use Rattle.ms_dfa.specs.declared.plain.FileSign.TheVariants.{Outside};
ghost use Rattle.ms_dfafile_outside.specs.declared.label.Label.{Label};
ghost use Rattle.ms_dfafile_outside.specs.inner.Labels.{AreLabels, Finds, IsKnown, IsLabelWith, IsSettled, IsSmall, level_behind, orders_in};
ghost use Rattle.ms_dfafile_outside.specs.inner.Numbers.{AreSetsBefore};
ghost use Rattle.ms_logic_words.specs.Content.{IsContent, NamesPart};

use crate::arrival::{Arrival, arrive, index_of};
use crate::label::Label;
use crate::labels::Labels;
use ms_arena::Ref;
use ms_dfa::{FileSign, Plain};
use ms_list::NoMemory;
use ms_logic::Order;

/// The place behind a variable of letters, and that behind all variables where it is a truth value.
fn level_behind(plain: &Plain, var: u32) -> usize
    requires { var < length plain.now.variables }
    ensures { result ≡ level_behind (content_of_file plain.now) var }
{
    match plain.variables.get(var as usize).order {
        Order::Zero => plain.variables.len(),
        Order::One => var as usize + 1,
        Order::Two => var as usize + 1,
    }
}

/// The label once the variable has one 1 more.
fn with_variable(plain: &Plain, sets: &[u32], label: Label, var: u32) -> Label
    requires within { var < length plain.now.variables }
    requires sets { AreSetsBefore (orders_in (content_of_file plain.now)) sets.now }
    requires label { IsSmall label }
    ensures { IsLabelWith (orders_in (content_of_file plain.now)) var label result }
{
    match plain.variables.get(var as usize).order {
        Order::One => label.with_number(sets[var as usize]),
        _ => label,
    }
}

/// Whether the sign is `x`.
fn is_outside(sign: FileSign) -> bool
    ensures { IsTrue result ↔ (sign ≡ Outside) }
{
    match sign {
        FileSign::Outside => true,
        FileSign::Plus => false,
        FileSign::Minus => false,
        FileSign::Zero => false,
    }
}

/// Tries the sign of a state with a label, and hands the label on.
fn settle_state(
    plain: &Plain,
    sets: &[u32],
    labels: &mut Labels,
    place: u32,
    label: Label,
) -> Result<bool, NoMemory>
    requires content { IsContent (content_of_file plain.now) }
    requires few { length plain.now.states < 2 ^ 32 }
    requires sets { AreSetsBefore (orders_in (content_of_file plain.now)) sets.now }
    requires labels { AreLabels (content_of_file plain.now) labels.old.known.items labels.old.work }
    requires named { place < length plain.now.states }
    requires known { IsKnown (content_of_file plain.now) labels.old.known.items (Leaf place) label }
    ensures { IfOk result (Finds (content_of_file plain.now) labels.old.known.items labels.new.known.items labels.old.work labels.new.work (IsSettled (content_of_file plain.now) labels.new.known.items (Leaf place) label)) }
{
    let state = *plain.states.get(place as usize);
    let has_all = label.is_all(sets[sets.len() - 1]);
    if is_outside(state.sign) == has_all {
        return Ok(false);
    }
    arrive(
        plain,
        sets,
        labels,
        Arrival {
            reference: state.next,
            label,
            level: 0,
        },
    )
}

/// Hands on the label of a node.
fn settle_node(
    plain: &Plain,
    sets: &[u32],
    labels: &mut Labels,
    place: u32,
    label: Label,
) -> Result<bool, NoMemory>
    requires content { IsContent (content_of_file plain.now) }
    requires few { length plain.now.states < 2 ^ 32 }
    requires sets { AreSetsBefore (orders_in (content_of_file plain.now)) sets.now }
    requires labels { AreLabels (content_of_file plain.now) labels.old.known.items labels.old.work }
    requires named { place < length plain.now.nodes }
    requires known { IsKnown (content_of_file plain.now) labels.old.known.items (Inner place) label }
    ensures { IfOk result (Finds (content_of_file plain.now) labels.old.known.items labels.new.known.items labels.old.work labels.new.work (IsSettled (content_of_file plain.now) labels.new.known.items (Inner place) label)) }
{
    let node = *plain.nodes.get(place as usize);
    let level = level_behind(plain, node.var);
    let more = with_variable(plain, sets, label, node.var);
    let low = Arrival {
        reference: node.low,
        label,
        level,
    };
    let high = Arrival {
        reference: node.high,
        label: more,
        level,
    };
    if !arrive(plain, sets, labels, low)? {
        return Ok(false);
    }
    arrive(plain, sets, labels, high)
}

/// Hands on the label of what has one.
pub(crate) fn settle(
    plain: &Plain,
    sets: &[u32],
    labels: &mut Labels,
    reference: Ref,
) -> Result<bool, NoMemory>
    requires content { IsContent (content_of_file plain.now) }
    requires few { length plain.now.states < 2 ^ 32 }
    requires sets { AreSetsBefore (orders_in (content_of_file plain.now)) sets.now }
    requires labels { AreLabels (content_of_file plain.now) labels.old.known.items labels.old.work }
    requires named { NamesPart (content_of_file plain.now) reference }
    requires known { (label : Label) × IsKnown (content_of_file plain.now) labels.old.known.items reference label }
    ensures { IfOk result (Finds (content_of_file plain.now) labels.old.known.items labels.new.known.items labels.old.work labels.new.work ((label : Label) → IsKnown (content_of_file plain.now) labels.old.known.items reference label → IsSettled (content_of_file plain.now) labels.new.known.items reference label)) }
{
    // What is handed on has a label.
    let Some(label) = labels.known[index_of(plain, reference)] else {
        return Ok(true);
    };
    match reference {
        Ref::Leaf(place) => settle_state(plain, sets, labels, place, label),
        Ref::Inner(place) => settle_node(plain, sets, labels, place, label),
    }
}
