use ms_arena::Ref;

/// What a memo is asked for.
#[derive(Clone, Copy, PartialEq, Eq, Hash)]
pub struct Key {
    pub left: Ref,
    pub right: Ref,
}
