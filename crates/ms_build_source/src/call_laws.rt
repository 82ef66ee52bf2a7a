//! Laws of the definitions. Each function has an empty body, and its contract states its laws.

ghost use Rattle.ms_build_source.specs.inner.Filling.{BodiesAreFilled, SpreadsAreFilled};
ghost use Rattle.ms_build_source.specs.inner.CallLaws.{BodiesFollowNames, DefaultsFollowNames, SpreadsFollowNames};

/// With other names a spread is the same formula with other numbers.
pub fn laws_of_names()
    ensures spreads { SpreadsFollowNames }
    ensures bodies { BodiesFollowNames }
    ensures defaults { DefaultsFollowNames }
{}

/// A formula in which calls stand as imports becomes its spread where what they stand for is filled in, and so does the body of a
/// predicate.
pub fn laws_of_calls()
    ensures spreads { SpreadsAreFilled }
    ensures bodies { BodiesAreFilled }
{}
