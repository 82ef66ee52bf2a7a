use crate::list::List;

/// A word over a list of variables: the truth values of the variables of order 0, and letters with
/// one bit for each other variable.
#[derive(Drop)]
pub struct Word {
    pub truth: List<bool>,
    pub letters: List<List<bool>>,
}
