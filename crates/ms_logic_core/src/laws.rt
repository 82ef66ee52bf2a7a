//! The law of the spread. The function has an empty body, and its contract states the law.

ghost use Rattle.ms_logic_core.specs.inner.SpreadLaws.{SpreadKeepsValue};

/// A formula without calls, defaults and `let` is Yes exactly where its spread is, and No likewise.
pub fn laws_of_spread()
    ensures keeps_value { SpreadKeepsValue }
{}
