use crate::seen::Seen;

/// The file names of exports and the titles of goals so far: each stands once.
#[derive(Drop)]
pub struct Taken {
    pub files: Seen,
    pub titles: Seen,
}
