//! Laws of the definitions. Each function has an empty body, and its contract states its laws.

ghost use Rattle.ms_logic.specs.FreeVariables.{ValueDependsOnFreeVariables};
ghost use Rattle.ms_logic.specs.inner.Laws.{YesExcludesNo, DoubleNegation, ExIsDual, AllIsDual};
ghost use Rattle.ms_logic.specs.OrderLaws.{BoundIsLeast, BeforeIsIrreflexive, BeforeIsTransitive, BeforeIsTotal};
ghost use Rattle.ms_logic.specs.inner.SetLaws.{SetsAreTheirMembers, SubsetLaw, ListedSet, UnionLaw, IntersectionLaw, DifferenceLaw, MovedUpLaw, MovedDownLaw, NumbersBelowLaw, OneBitsLaw, PartWithinLaw, LeastLaw, GreatestLaw};

/// Yes and No exclude each other, and negation exchanges them.
pub fn laws_of_truth()
    ensures yes_excludes_no { YesExcludesNo }
    ensures double_negation { DoubleNegation }
    ensures ex_is_dual { ExIsDual }
    ensures all_is_dual { AllIsDual }
    ensures depends_on_free_variables { ValueDependsOnFreeVariables }
{}

/// The operations on sets have the members that their names say.
pub fn laws_of_sets()
    ensures sets_are_their_members { SetsAreTheirMembers }
    ensures subset { SubsetLaw }
    ensures listed { ListedSet }
    ensures union { UnionLaw }
    ensures intersection { IntersectionLaw }
    ensures difference { DifferenceLaw }
    ensures moved_up { MovedUpLaw }
    ensures moved_down { MovedDownLaw }
    ensures numbers_below { NumbersBelowLaw }
    ensures one_bits { OneBitsLaw }
    ensures part_within { PartWithinLaw }
    ensures least { LeastLaw }
    ensures greatest { GreatestLaw }
{}

/// 'Before' is a strict total order of the assignments of one list of variables.
pub fn laws_of_order()
    ensures bound_is_least { BoundIsLeast }
    ensures irreflexive { BeforeIsIrreflexive }
    ensures transitive { BeforeIsTransitive }
    ensures total { BeforeIsTotal }
{}
