//! The signs of all words up to a length: of basic relations, and of what connectives make of them. A row of the data names
//! steps, from left to right: a basic relation with its variables, by number, is one automaton more, and a connective takes
//! the last ones and leaves one; a renaming takes the last one,
//! and so do a track that is added, a minimisation and a quantifier; a quantifier with a domain takes the body and the domain.
//! Other rows tell the automaton file of what the steps leave, or a text that is none.
#![tactic(auto)]

mod files;
mod orders;
mod quantifiers;
mod rows;
mod steps;
mod words;

use anyhow::Result;

fn main(rt: HostRuntime) -> Result<()> {
    rows::tell(&rt)
}
