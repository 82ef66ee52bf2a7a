//! The definitions at small cases, worked out by hand. The function has an empty body, and its contract is the table of its examples.

ghost use Rattle.ms_build_parts.specs.inner.Examples.{subset_elsewhere};
ghost use Rattle.ms_logic.specs.declared.mode.Order.TheVariants.{Two};
ghost use Rattle.ms_logic.specs.inner.Examples.{variable};
ghost use Rattle.ms_logic_words.specs.inner.ContentExamples.{full_subset_content};
ghost use Rattle.ms_project_parts.specs.Laws.{IsBoundAs, IsOverSome};
ghost use Rattle.ms_project_parts.specs.inner.Examples.{over_Q, over_seventh, over_third};

/// P sub Q over the sets 0 and 1, which a content over the sets 3 and 7 says too.
pub fn worked_bindings()
    // where Q is bound, the other content has the set 7 in its place
    ensures bound { IsBoundAs full_subset_content subset_elsewhere (variable 1 Two) (variable 7 Two) }
    ensures other_place { ¬ IsBoundAs full_subset_content subset_elsewhere (variable 1 Two) (variable 3 Two) }
    // the set 7 is not among P and Q
    ensures not_there { ¬ IsBoundAs full_subset_content subset_elsewhere (variable 7 Two) (variable 7 Two) }

    // what a domain over Q says is said over the set 7, not over the set 3
    ensures domain { IsOverSome full_subset_content over_Q subset_elsewhere over_seventh }
    ensures other_domain { ¬ IsOverSome full_subset_content over_Q subset_elsewhere over_third }
    // and a domain is over variables of the body
    ensures not_among { ¬ IsOverSome full_subset_content over_seventh subset_elsewhere over_seventh }
{}
