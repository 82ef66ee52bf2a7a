use crate::frame::Operand;
use ms_list::{List, Name};
use ms_logic::{Quant, Rel};
use ms_presburger::Part;

/// Which sum of a comparison is read.
#[derive(Drop)]
pub enum Side {
    Left,
    /// The left sum, and the relation behind it.
    Right(Rel, List<Part>),
}

/// Where the reading stands in the innermost formula.
#[derive(Drop)]
pub enum Place {
    /// A formula is wanted.
    Wanted,
    /// A name is wanted behind a quantifier and these names.
    Naming(Quant, List<Name>),
    /// A name has been read behind a quantifier, the last of these.
    Named(Quant, List<Name>),
    /// A part of a sum is wanted, behind these.
    Adding(Side, List<Part>),
    /// A part of a sum has been read, the last one.
    Added(Side, List<Part>, Part),
    /// A formula has been read.
    Holding(Operand),
}
