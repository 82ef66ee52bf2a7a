//! Laws of the definitions. The function has an empty body, and its contract states the laws.

ghost use Rattle.ms_names_checked.specs.inner.Laws.{TypedSourcesHaveNames, TypedSourcesMeetRules};

/// A source in which nothing is wrong becomes a checked one that meets the rules by itself: exports stand where they may and list
/// the free variables of what they export, names differ where they should, variables of one number have one order, and constants
/// are in range. Its names are names of the language where those of the source are.
pub fn laws_of_checked()
    ensures rules { TypedSourcesMeetRules }
    ensures names { TypedSourcesHaveNames }
{}
