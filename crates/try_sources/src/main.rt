//! What the calls between the bytes of a source and its declarations answer, where no request shows it: tokens, trees,
//! sources printed and read again, and loads.
#![tactic(auto)]

mod loads;
mod parses;
mod prints;
mod rows;
mod tokens;
mod told;

use anyhow::Result;

fn main(rt: HostRuntime) -> Result<()> {
    tokens::tell(&rt)?;
    parses::tell(&rt)?;
    prints::tell(&rt)?;
    loads::tell(&rt)
}
