ghost use Rattle.ms_dag.specs.inner.Codes.{code_of_order, code_of_quant, codes_of_basic, codes_of_child, codes_of_domain, codes_of_each, codes_of_entry, codes_of_node, codes_of_numbers};
ghost use Rattle.std.specs.Prelude.{◌≡◌, ◌++◌, ◌∷◌, length, map, IfOk, OnOk};

use crate::node::{Child, DagNode, Entry};
use ms_list::{List, NoMemory, push};
use ms_logic::{Order, Quant};
use ms_logic_core::Basic;
use std::alloc::Global;

/// How many codes there is room for from the first, which is enough for most nodes.
const ROOM: usize = 16;

fn order_code(order: Order) -> u64
    ensures { result ≡ code_of_order order }
{
    match order {
        Order::Zero => 0,
        Order::One => 1,
        Order::Two => 2,
    }
}

fn quant_code(quant: Quant) -> u64
    ensures { result ≡ code_of_quant quant }
{
    match quant {
        Quant::Ex => 0,
        Quant::All => 1,
    }
}

fn add_codes(codes: &mut List<u64>, more: &[u64]) -> Result<(), NoMemory>
    ensures { OnOk result (codes.new ≡ codes.old ++ more.now) }
{
    for code in more {
        push(codes, *code)?;
    }
    Ok(())
}

fn add_numbers(codes: &mut List<u64>, numbers: &[u32]) -> Result<(), NoMemory>
    ensures { OnOk result (codes.new ≡ codes.old ++ codes_of_numbers numbers.now) }
{
    push(codes, numbers.len() as u64)?;
    for number in numbers {
        push(codes, u64::from(*number))?;
    }
    Ok(())
}

fn add_orders(codes: &mut List<u64>, orders: &[Order]) -> Result<(), NoMemory>
    ensures { OnOk result (codes.new ≡ codes.old ++ codes_of_numbers (map code_of_order orders.now)) }
{
    push(codes, orders.len() as u64)?;
    for order in orders {
        push(codes, order_code(*order))?;
    }
    Ok(())
}

// The form, three variables and a number.
fn basic_codes(basic: &Basic) -> [u64; 5]
    ensures { result ≡ codes_of_basic basic.now }
{
    match *basic {
        Basic::Truth(a) => [0, u64::from(a), 0, 0, 0],
        Basic::Number(x, n) => [1, u64::from(x), 0, 0, n],
        Basic::Plus(x, y, n) => [2, u64::from(x), u64::from(y), 0, n],
        Basic::Less(x, y) => [3, u64::from(x), u64::from(y), 0, 0],
        Basic::Member(x, s) => [4, u64::from(x), u64::from(s), 0, 0],
        Basic::Sub(s, t) => [5, u64::from(s), u64::from(t), 0, 0],
        Basic::Union(s, t, u) => [6, u64::from(s), u64::from(t), u64::from(u), 0],
        Basic::Inter(s, t, u) => [7, u64::from(s), u64::from(t), u64::from(u), 0],
        Basic::Diff(s, t, u) => [8, u64::from(s), u64::from(t), u64::from(u), 0],
        Basic::Up(s, t, n) => [9, u64::from(s), u64::from(t), 0, n],
        Basic::Down(s, t, n) => [10, u64::from(s), u64::from(t), 0, n],
        Basic::Min(x, s) => [11, u64::from(x), u64::from(s), 0, 0],
        Basic::Max(x, s) => [12, u64::from(x), u64::from(s), 0, 0],
        Basic::Bits(s, n) => [13, u64::from(s), 0, 0, n],
    }
}

fn add_child(codes: &mut List<u64>, child: &Child) -> Result<(), NoMemory>
    ensures { OnOk result (codes.new ≡ codes.old ++ codes_of_child child.now) }
{
    push(codes, u64::from(child.node))?;
    add_numbers(codes, child.map.slice())
}

fn add_each(codes: &mut List<u64>, children: &[Child]) -> Result<(), NoMemory>
    ensures { OnOk result (codes.new ≡ codes.old ++ length children.now ∷ codes_of_each children.now) }
{
    push(codes, children.len() as u64)?;
    for child in children {
        add_child(codes, child)?;
    }
    Ok(())
}

fn add_both(codes: &mut List<u64>, left: &Child, right: &Child) -> Result<(), NoMemory>
    ensures { OnOk result (codes.new ≡ codes.old ++ (codes_of_child left.now ++ codes_of_child right.now)) }
{
    add_child(codes, left)?;
    add_child(codes, right)
}

fn add_binder(codes: &mut List<u64>, domain: &Option<Child>, body: &Child) -> Result<(), NoMemory>
    ensures { OnOk result (codes.new ≡ codes.old ++ (codes_of_domain domain.now ++ codes_of_child body.now)) }
{
    match domain {
        None => push(codes, 0)?,
        Some(domain) => {
            push(codes, 1)?;
            add_child(codes, domain)?;
        }
    }
    add_child(codes, body)
}

fn add_node(codes: &mut List<u64>, node: &DagNode) -> Result<(), NoMemory>
    ensures { OnOk result (codes.new ≡ codes.old ++ codes_of_node node.now) }
{
    match node {
        DagNode::True => push(codes, 0),
        DagNode::False => push(codes, 1),
        DagNode::Basic(basic) => {
            push(codes, 2)?;
            add_codes(codes, &basic_codes(basic))
        }
        DagNode::Not(child) => {
            push(codes, 3)?;
            add_child(codes, child)
        }
        DagNode::And(children) => {
            push(codes, 4)?;
            add_each(codes, children.slice())
        }
        DagNode::Or(children) => {
            push(codes, 5)?;
            add_each(codes, children.slice())
        }
        DagNode::Implies(left, right) => {
            push(codes, 6)?;
            add_both(codes, left, right)
        }
        DagNode::Iff(left, right) => {
            push(codes, 7)?;
            add_both(codes, left, right)
        }
        DagNode::Restrict(child) => {
            push(codes, 8)?;
            add_child(codes, child)
        }
        DagNode::Import(import, variables) => {
            add_codes(codes, &[9, u64::from(*import)])?;
            add_numbers(codes, variables.slice())
        }
        DagNode::Bind(quant, order, variable, domain, body) => {
            add_codes(
                codes,
                &[
                    10,
                    quant_code(*quant),
                    order_code(*order),
                    u64::from(*variable),
                ],
            )?;
            add_binder(codes, domain, body)
        }
    }
}

/// The codes of a node with its orders.
pub(crate) fn codes_of(alloc: Global, entry: &Entry) -> Result<List<u64>, NoMemory>
    ensures { IfOk result (λ codes. codes ≡ codes_of_entry entry.now) }
{
    let Ok(room) = Vec::with_capacity(alloc, ROOM) else {
        return Err(NoMemory);
    };
    let mut codes = List::from(room);
    add_orders(&mut codes, entry.orders.slice())?;
    add_node(&mut codes, &entry.node)?;
    Ok(codes)
}
