//! Worked examples of the definitions. The functions have empty bodies, and their contracts state the examples.

ghost use Rattle.std.specs.Prelude.{None, codes};
ghost use Rattle.ms_edge.specs.Files.{between};
ghost use Rattle.ms_edge.specs.declared.refusal.Refusal.TheVariants.{FileMissing, Memory, ReadFault};
ghost use Rattle.ms_include_laws.specs.inner.loads.Examples.{empty_after, silent};
ghost use Rattle.ms_include_laws.specs.Told.{IsFromOutside, TellSame};

/// What two calls saw of the files.
pub fn worked_told()
    // The contents are told to both, whatever went wrong before or between.
    ensures same { TellSame (between (empty_after 0) (empty_after 3)) (between (empty_after 3) (empty_after 3)) }

    // Files that tell nothing tell nothing the same.
    ensures silent { ¬ TellSame (between silent silent) (between silent silent) }
{}

/// Refusals that tell of no fault of a source.
pub fn worked_outside()
    ensures memory { IsFromOutside (between silent silent) Memory }

    // A read failed between, or none did.
    ensures failed { IsFromOutside (between (empty_after 2) (empty_after 3)) (ReadFault (codes "a")) }
    ensures no_failure { ¬ IsFromOutside (between (empty_after 2) (empty_after 2)) (ReadFault (codes "a")) }

    // A file that is not there is a fault of the source, whatever failed.
    ensures missing { ¬ IsFromOutside (between (empty_after 2) (empty_after 3)) (FileMissing None (codes "a")) }
{}
