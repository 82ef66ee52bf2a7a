ghost use Rattle.ms_quotient.specs.Closure.{StandsOnWay};
ghost use Rattle.ms_quotient.specs.inner.Examples.{marks_of_ring, way_into_ring};

/// A way into a ring of two places: what stands in the ring is met at each of them, what stands before it at neither.
pub fn worked_closures()
    ensures before { StandsOnWay (λ m. m.yes) way_into_ring marks_of_ring 0 }
    ensures in_ring { StandsOnWay (λ m. m.no) way_into_ring marks_of_ring 1 }
    ensures round { StandsOnWay (λ m. m.no) way_into_ring marks_of_ring 2 }
    ensures not_back { ¬ StandsOnWay (λ m. m.yes) way_into_ring marks_of_ring 1 }
    ensures nowhere { ¬ StandsOnWay (λ m. m.undefined) way_into_ring marks_of_ring 0 }
{}
