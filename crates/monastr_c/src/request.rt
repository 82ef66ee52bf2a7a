/// How many bytes the name and the content of a file have.
#[repr(C)]
#[derive(Clone, Copy, PartialEq, Eq)]
pub struct FileLengths {
    pub name: u64,
    pub content: u64,
}

/// A request: the words after the program's name, one behind the other, and how many bytes each has; the names and contents of the
/// files, each name before its content, and how many bytes these have.
#[repr(C)]
pub struct Request<'a> {
    pub words: &'a [u8],
    pub word_lengths: &'a [u64],
    pub files: &'a [u8],
    pub file_lengths: &'a [FileLengths],
}

/// How much an outcome needs: the bytes of the text, those of the text with the names and contents of the written files, and
/// the number of these files.
#[repr(C)]
#[derive(Clone, Copy)]
pub struct Answer {
    pub text: u64,
    pub bytes: u64,
    pub files: u64,
}
