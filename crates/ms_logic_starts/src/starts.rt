//! What starts leave of a content. Each function has an empty body, and its contract states its laws.

ghost use Rattle.ms_logic_starts.specs.ContentStarts.{CanonicalContentsAreReached, PartsAreLeft, ReachedPartsAreCounted, RisingNumbersAreDistinct, StartsLeaveParts};

/// Variables with rising numbers are distinct.
pub fn law_of_rising_numbers()
    ensures distinct { RisingNumbersAreDistinct }
{}

/// Starts over the variables of a content lead to those of its states and nodes that are reached, and to each of them; so where its
/// diagrams are reduced they lead to as many references.
pub fn laws_of_starts<Sign>()
    ensures parts { StartsLeaveParts Sign }
    ensures left { PartsAreLeft Sign }
    ensures counted { ReachedPartsAreCounted Sign }
    ensures canonical { CanonicalContentsAreReached Sign }
{}
