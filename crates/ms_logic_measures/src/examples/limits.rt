ghost use Rattle.ms_logic_measures.specs.inner.BudgetExamples.{measured_subset};
ghost use Rattle.ms_logic_measures.specs.Budgets.{IsEnough};

/// Limits for the source var2 P, Q; P sub Q.
pub fn worked_limits()
    // the root has four pairs, and five states and nodes are read: (4 + 5 + 2)² · 256 = 30,976
    ensures too_little { ¬ IsEnough measured_subset 30975 }
    ensures enough { IsEnough measured_subset 30976 }
{}
