//! What basic relations need. The function has an empty body, and its contract states the laws.

ghost use Rattle.ms_basic_parts.specs.Laws.{BitsNeedStates, NumbersNeedStates, RelationsAreWithinBudget, RelationsAreWithinMeasure, ShiftsDownNeedStates, ShiftsUpNeedStates, SumsNeedStates};

/// Where each place has a variable of its own, the full content of `x = n` and of `x = y + n` has more than n states, that of `S = T + n`
/// and of `S = T - n` at least 2^n, and that of `S = pconst(n)` at least as many as n has digits. So a relation's machine is short of
/// nodes only under a limit below the budget of the relation's step, and below the measure of its own call.
pub fn laws_of_relations()
    ensures numbers { NumbersNeedStates }
    ensures sums { SumsNeedStates }
    ensures shifts_up { ShiftsUpNeedStates }
    ensures shifts_down { ShiftsDownNeedStates }
    ensures bits { BitsNeedStates }
    ensures budget { RelationsAreWithinBudget }
    ensures measure { RelationsAreWithinMeasure }
{}
