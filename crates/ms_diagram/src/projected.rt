use crate::store::Store;
use std::marker::Model;

/// A store whose diagrams are read with one variable, the track, left out: for both of its bits, and with variable `map[i]` in
/// place of each other variable `i`. Contracts see its nodes, the map and the track.
#[derive(Drop)]
pub struct Projected<'a> {
    pub store: &'a Store,
    pub map: &'a [u32],
    pub track: u32,
}

impl<'a> Model for Projected<'a> {
    ghost use Rattle.ms_diagram.specs.Projecting.{Projecting};

    ghost Value = { Projecting };

    ghost view = { λ p. record { nodes = p.store.now.nodes; map = p.map.now; track = p.track } };
}
