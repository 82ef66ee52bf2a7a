/// A place in a source: the number of the file, in the order of loading, and a byte of it, from 0.
#[derive(Clone, Copy, PartialEq, Eq)]
pub struct At {
    pub file: u32,
    pub place: u64,
}
