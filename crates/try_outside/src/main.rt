//! What the calls on lists, texts, files and sinks answer, and what the texts of the program are, where no request shows it.
#![tactic(auto)]

mod disk;
mod memory;
mod reports;
mod sinks;
mod values;

use anyhow::Result;

fn main(rt: HostRuntime) -> Result<()> {
    values::tell(&rt)?;
    memory::tell(&rt)?;
    sinks::tell(&rt)?;
    disk::tell(&rt)?;
    reports::tell(&rt)
}

/// Bytes as text.
fn shown(bytes: &[u8]) -> &str {
    std::str::from_utf8(bytes).unwrap_or("bytes that are no text")
}
