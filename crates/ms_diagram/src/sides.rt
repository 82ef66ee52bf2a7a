use crate::store::Store;
use std::marker::Model;

/// A store whose diagrams are read with variable `map[i]` in place of variable `i`. Contracts see its nodes and the map.
#[derive(Drop)]
pub struct Renamed<'a> {
    pub store: &'a Store,
    pub map: &'a [u32],
}

impl<'a> Model for Renamed<'a> {
    ghost use Rattle.ms_diagram.specs.Side.{Side};

    ghost Value = { Side };

    ghost view = { λ r. record { nodes = r.store.now.nodes; map = r.map.now } };
}

/// The stores of the two references of a pair.
#[derive(Drop)]
pub struct Sides<'a> {
    pub left: Renamed<'a>,
    pub right: Renamed<'a>,
}
