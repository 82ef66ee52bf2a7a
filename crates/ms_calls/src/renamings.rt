//! What renamings need and make. The function has an empty body, and its contract states the laws.

ghost use Rattle.ms_calls.specs.Renamings.{RenamesAreWithinMeasure, RenamesNeedFewParts, RisingRenamesHaveFewParts};

/// A renaming needs no more states and nodes than the number m of its measure, so it is short of nodes only under a limit below its
/// measure, and one whose numbers do not rise makes no more. One whose numbers rise is refused for want of memory alone, and starts
/// lead what it makes to no more references than m.
pub fn laws_of_renamings()
    ensures needs { RenamesNeedFewParts }
    ensures measure { RenamesAreWithinMeasure }
    ensures few { RisingRenamesHaveFewParts }
{}
