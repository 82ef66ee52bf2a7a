//! What products need. The function has an empty body, and its contract states the laws.

ghost use Rattle.ms_build_parts.specs.Laws.{CanonicalContentsHaveOneCount, ClosedContentsHaveLabels, MeasuredContentsHaveLabels, ProductsAreWithinBudget, ProductsNeedFewLabels, ProductsNeedFewParts};

/// A product needs at most twice as many states and nodes as there are pairs of labels of its operands. A closed content has no more
/// labels than states and nodes, and one of fewest states no more than the canonical content that says the same.
/// So a product of automata of fewest states needs at most twice as many states and nodes as there are pairs of states and nodes of the
/// canonical contents that say the same. These are counted by starts, so a product is short of nodes only below the budget of its operands.
pub fn laws_of_products()
    ensures labels { ProductsNeedFewLabels }
    ensures closed { ClosedContentsHaveLabels }
    ensures measured { MeasuredContentsHaveLabels }
    ensures few { ProductsNeedFewParts }
    ensures counted { CanonicalContentsHaveOneCount }
    ensures budget { ProductsAreWithinBudget }
{}
