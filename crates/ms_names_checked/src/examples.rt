//! Worked examples of the definitions. The functions have empty bodies, and their contracts state the examples.

ghost use Rattle.ms_names_checked.specs.Constants.{HasConstantsInRange};
ghost use Rattle.ms_names_checked.specs.inner.Examples.{binds_two, compares, compares_bits, declares, declares_twice, empty_string, exports_emptiness, exports_in_a_let, exports_twice, lists_a_name_twice, lists_too_little, lists_too_much, orders_sets, reads_a_name_twice, reads_into_one};
ghost use Rattle.ms_names_checked.specs.Exports.{ListsFreeVariables};
ghost use Rattle.ms_names_checked.specs.Names.{NamesDiffer};
ghost use Rattle.ms_names_checked.specs.Orders.{HasOneOrder};
ghost use Rattle.ms_names_checked.specs.Spellings.{HasNames};
ghost use Rattle.ms_logic.specs.declared.mode.Mode.TheVariants.{M2lStr, Ws1s};
ghost use Rattle.ms_names_rules.specs.Numbers.{IsWellNumbered};
ghost use Rattle.std.specs.Prelude.{codes};

/// Exports, and what a source that is well numbered may still get wrong.
pub fn worked_exports()
    // var2 X; export("a", empty(X));
    ensures lists { ListsFreeVariables exports_emptiness }

    // var2 X; export("a", true); with X among the variables of the export
    ensures numbered { IsWellNumbered lists_too_much }
    ensures lists_too_much { ¬ ListsFreeVariables lists_too_much }

    // var2 X; export("a", empty(X)); without X among the variables of the export
    ensures lists_too_little { ¬ ListsFreeVariables lists_too_little }

    // let0 b = true in export("a", true);
    ensures numbered_in_a_let { IsWellNumbered exports_in_a_let }
    ensures in_a_let { ¬ ListsFreeVariables exports_in_a_let }
{}

/// Names.
pub fn worked_names()
    // var2 X; export("a", empty(X));
    ensures differ { NamesDiffer exports_emptiness }

    // export("a", true) & export("a", true);
    ensures file_twice { ¬ NamesDiffer exports_twice }

    // var2 X; var1 X;
    ensures global_twice { ¬ NamesDiffer declares_twice }

    // an export whose variables have one name
    ensures variable_twice { ¬ NamesDiffer lists_a_name_twice }

    // import("a", P -> X, P -> Y);
    ensures left_name_twice { ¬ NamesDiffer reads_a_name_twice }

    // import("a", P -> X, Q -> X);
    ensures right_name_twice { ¬ NamesDiffer reads_into_one }
{}

/// Names of the language.
pub fn worked_spellings()
    // var2 X; export("a", empty(X));
    ensures name { HasNames exports_emptiness }

    // var2 where; and var2 with no name
    ensures word { ¬ HasNames (declares (codes "where")) }
    ensures nothing { ¬ HasNames (declares (codes "")) }
{}

/// Orders: (ex1 x: true) & (ex2 y: true); where x and y have different numbers, and where they have one.
pub fn worked_orders()
    ensures two_numbers { HasOneOrder (binds_two 0 1) }
    ensures one_number { ¬ HasOneOrder (binds_two 5 5) }
{}

/// Constants, `$` and relations.
pub fn worked_constants()
    // 65535 = 0;
    ensures greatest { HasConstantsInRange (compares 65535) }

    // 65536 = 0;
    ensures too_large { ¬ HasConstantsInRange (compares 65536) }

    // pconst(65536) = empty;
    ensures bits { HasConstantsInRange (compares_bits 65536) }

    // empty($); on strings and on natural numbers
    ensures whole_string { HasConstantsInRange (empty_string M2lStr) }
    ensures no_string { ¬ HasConstantsInRange (empty_string Ws1s) }

    // empty < empty;
    ensures sets_in_order { ¬ HasConstantsInRange orders_sets }
{}
