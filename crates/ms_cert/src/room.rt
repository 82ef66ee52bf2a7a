use ms_list::NoMemory;

/// The most letters that all words of a certificate, or all lines of its tree, can have: a certificate has at most 67,108,864 bytes,
/// and each letter takes two or more.
pub(crate) const MOST_LETTERS: usize = 33_554_432;

/// Takes so many letters off the room that is left. More than there is room for would make no certificate that can be read.
pub(crate) fn take_room(room: &mut usize, letters: usize) -> Result<(), NoMemory> {
    if letters > *room {
        return Err(NoMemory);
    }
    *room -= letters;
    Ok(())
}
