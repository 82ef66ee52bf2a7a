//! Quantifiers, as the data names them.
use crate::orders::{are_among, contains};
use crate::steps::{LIMIT, told};
use anyhow::{Result, bail};
use ms_dfa::Automaton;
use ms_project::{Quantifier, project};
use std::alloc::Global;

/// The quantified body, over all values.
pub fn quantified(alloc: Global, body: &Automaton, quantifier: Quantifier) -> Result<Automaton> {
    if !contains(body.tracks(), quantifier.track) {
        bail!("the body lacks the variable");
    }
    told(project(alloc, body, None, quantifier, LIMIT))
}

/// The quantified body, over the values at which a domain holds.
pub fn quantified_where(
    alloc: Global,
    body: &Automaton,
    domain: &Automaton,
    quantifier: Quantifier,
) -> Result<Automaton> {
    if body.mode() != domain.mode() {
        bail!("one is over strings and one is not");
    }
    if !are_among(domain.tracks(), body.tracks()) {
        bail!("the domain has other tracks");
    }
    if !contains(body.tracks(), quantifier.track) {
        bail!("the body lacks the variable");
    }
    told(project(alloc, body, Some(domain), quantifier, LIMIT))
}
