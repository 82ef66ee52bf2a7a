//! What the calls on diagrams and automata answer, where no request shows it.
#![tactic(auto)]

mod arenas;
mod at_bits;
mod automata;
mod functions;
mod memos;
mod numberings;
mod parities;
mod paths;
mod plains;
mod stores;

use anyhow::Result;

fn main(rt: HostRuntime) -> Result<()> {
    arenas::tell(&rt)?;
    memos::tell(&rt)?;
    numberings::tell(&rt)?;
    stores::tell(&rt)?;
    at_bits::tell(&rt)?;
    parities::tell(&rt)?;
    paths::tell(&rt)?;
    plains::tell(&rt)?;
    automata::tell(&rt)
}
