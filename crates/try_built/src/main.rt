//! What the calls from names on answer, where no request shows it: typed trees, of any depth, and copies of them; lowering, at
//! its limits; and, with ample memory, core formulas made by hand as a graph and as automata, and the solutions of sources.
#![tactic(auto)]

mod checks;
mod deep;
mod graphs;
mod inclusions;
mod lowered;
mod no_calls;
mod solutions;
mod trees;

use anyhow::Result;

fn main(rt: HostRuntime) -> Result<()> {
    checks::tell(&rt)?;
    trees::tell(&rt)?;
    deep::tell(&rt)?;
    lowered::tell(&rt)?;
    println!(rt; "Graphs")?;
    graphs::tell(&rt)?;
    println!(rt; "Solutions")?;
    solutions::tell(&rt)
}
