/// A summand of a sum of sets of digits.
#[derive(Clone, Copy)]
pub(crate) enum Summand {
    Constant(u64),
    /// The set of a variable, moved up: its number times a power of two.
    Shifted(u32, u64),
}
