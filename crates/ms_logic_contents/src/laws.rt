//! Laws of full contents. The function has an empty body, and its contract states them.

ghost use Rattle.ms_logic_contents.specs.Laws.{FullContentsAreEqual, FullContentsExist};

/// Each core formula has a full content over each list of variables that has its own, and only one.
pub fn laws_of_full_contents()
    ensures exist { FullContentsExist }
    ensures equal { FullContentsAreEqual }
{}
