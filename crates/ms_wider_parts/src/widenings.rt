//! What widenings need. The function has an empty body, and its contract states the laws.

ghost use Rattle.ms_wider_parts.specs.Laws.{FixedProductsNeedFewParts, PairsOfPartsAreLabels, ResidualsFixStates, RisingMapsKeepOrder, SpreadBitsKeepOrder, ZeroLetterKeepsEncodings};

/// A letter of zeros behind a word does not change whether it encodes an assignment. Bits that are read through a rising map,
/// or spread by it over more variables, keep their order. A content has no more labels than there are pairs of parts of two others, where
/// the pairs of states to which bits lead these fix the state to which they lead the content; so a product of it and of a small automaton
/// needs few states and nodes.
pub fn laws_of_widenings()
    ensures zeros { ZeroLetterKeepsEncodings }
    ensures order { RisingMapsKeepOrder }
    ensures spread { SpreadBitsKeepOrder }
    ensures fixed { ResidualsFixStates }
    ensures labels { PairsOfPartsAreLabels }
    ensures few { FixedProductsNeedFewParts }
{}
