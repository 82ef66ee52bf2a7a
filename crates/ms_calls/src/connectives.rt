//! What connectives need. The function has an empty body, and its contract states the laws.

ghost use Rattle.ms_calls.specs.Products.{ConnectivesAreWithinMeasure, ConnectivesNeedFewPairs, ProductsNeedFewPairs};

/// A product needs no more states and nodes than the pairs of references to which starts over all its variables lead its operands.
/// So a connective of two automata makes no more than the number m of its measure, and is short of nodes only below its measure.
pub fn laws_of_connectives()
    ensures pairs { ProductsNeedFewPairs }
    ensures few { ConnectivesNeedFewPairs }
    ensures measure { ConnectivesAreWithinMeasure }
{}
