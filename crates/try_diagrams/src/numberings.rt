//! Numberings of pairs and of sets.
ghost use Rattle.std.specs.List.Sorted.{IsStrictlyIncreasing};

use anyhow::Result;
use ms_diagram::{Pairs, Sets};

pub fn tell(rt: &HostRuntime) -> Result<()> {
    println!(rt; "Numberings")?;
    pairs(rt)?;
    sets(rt)
}

fn pairs(rt: &HostRuntime) -> Result<()> {
    let mut pairs = Pairs::new(rt.alloc());
    for (left, right) in [(4, 2), (2, 4), (4, 2)] {
        if pairs.len() < 9 {
            println!(rt;
                "the pair {left}, {right} has the number {}",
                pairs.number(left, right)?
            )?;
        }
    }
    print_pairs(rt, &pairs)
}

fn print_pairs(rt: &HostRuntime, pairs: &Pairs) -> Result<()> {
    println!(rt; "{} pairs", pairs.len())?;
    for i in 0..pairs.len() {
        println!(rt; "pair {i} is {:?}", pairs.get(i))?;
    }
    Ok(())
}

fn sets(rt: &HostRuntime) -> Result<()> {
    let mut sets = Sets::new(rt.alloc());
    number(rt, &mut sets, "the set of 1 and 3", &[1, 3])?;
    number(rt, &mut sets, "the empty set", &[])?;
    number(rt, &mut sets, "the set of 1 and 3", &[1, 3])?;
    print_sets(rt, &sets)
}

fn number(rt: &HostRuntime, sets: &mut Sets, name: &str, set: &[u32]) -> Result<()>
    requires { IsStrictlyIncreasing set.now }
{
    if sets.len() < 9 {
        let number = sets.number(Vec::from_slice(rt.alloc(), set)?)?;
        println!(rt; "{name} has the number {number}")?;
    }
    Ok(())
}

fn print_sets(rt: &HostRuntime, sets: &Sets) -> Result<()> {
    println!(rt; "{} sets", sets.len())?;
    for i in 0..sets.len() {
        println!(rt; "set {i} is {:?}", sets.get(i))?;
    }
    Ok(())
}
