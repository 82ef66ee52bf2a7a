ghost use Rattle.std.specs.Prelude.{◌≡◌, ◌+◌, ◌≤◌, ◌↔◌, ◌++◌, [], ◌∷◌, All, IfErr, IfOk, IsErrOf, IsTrue, IsUtf8, OnErr, OnOk, drop, fold, length, sum, take, vec_len, vec_capacity};
ghost use Rattle.std.specs.Option.{option_copied};
ghost use Rattle.ms_edge.specs.FilesInMemory.{held_after};
ghost use Rattle.monastr_c.specs.Buffers.{FilesAddUp, files_in, names_in, pieces};
ghost use Rattle.monastr_c.specs.declared.buffers.Unread.TheVariants as unread;

use crate::request::FileLengths;
use ms_edge::CommandLine;
use ms_list::NoMemory;
use std::alloc::Global;
use std::str;

/// Why the words of a request were not read.
#[derive(Clone, Copy)]
pub enum Unread {
    NotText,
    NoMemory,
}

/// Whether the lengths add up to the count.
pub fn add_up(count: u64, lengths: &[u64]) -> bool
    ensures { IsTrue result ↔ (sum lengths.now ≡ count) }
{
    let mut left = count;
    for length in lengths {
        match left.checked_sub(*length) {
            Some(rest) => left = rest,
            None => return false,
        }
    }
    left == 0
}

/// Whether the lengths of files add up to the bytes.
pub fn files_add_up(bytes: &[u8], lengths: &[FileLengths]) -> bool
    ensures { IsTrue result ↔ FilesAddUp bytes.now lengths.now }
{
    let mut left = bytes.len() as u64;
    for file in lengths {
        match left.checked_sub(file.name) {
            Some(rest) if file.content <= rest => left = rest - file.content,
            _ => return false,
        }
    }
    left == 0
}

/// The first bytes, up to so many, and those behind them.
fn split(bytes: &[u8], count: u64) -> (&[u8], &[u8])
    ensures front { result.0.now ≡ take count bytes.now }
    ensures back { result.1.now ≡ drop count bytes.now }
{
    bytes.split_at(bytes.len().min(count as usize))
}

/// Appends the word. A refusal changes nothing.
fn push_word(words: &mut CommandLine, word: &str) -> Result<(), Unread>
    ensures ok { OnOk result (words.new ≡ words.old ++ word.now ∷ []) }
    ensures only_memory { IfErr result (λ fault. fault ≡ unread.NoMemory) }
{
    match words.push(word) {
        Ok(()) => Ok(()),
        Err(_) => Err(Unread::NoMemory),
    }
}

/// The words that the bytes spell.
pub fn words_of(alloc: Global, bytes: &[u8], lengths: &[u64]) -> Result<CommandLine, Unread>
    ensures words { IfOk result (λ words. words ≡ pieces bytes.now lengths.now) }
    ensures texts { OnOk result (All IsUtf8 (pieces bytes.now lengths.now)) }
    ensures not_text { IsErrOf result unread.NotText → ¬ All IsUtf8 (pieces bytes.now lengths.now) }
{
    let mut words = CommandLine::new(alloc);
    let mut rest = bytes;
    for length in lengths {
        let (word, behind) = split(rest, *length);
        match str::from_utf8(word) {
            Ok(text) => push_word(&mut words, text)?,
            Err(_) => return Err(Unread::NotText),
        }
        rest = behind;
    }
    Ok(words)
}

/// Whether the names of the files are text.
pub fn names_are_text(bytes: &[u8], lengths: &[FileLengths]) -> bool
    ensures { IsTrue result ↔ All IsUtf8 (names_in bytes.now lengths.now) }
{
    let mut rest = bytes;
    for file in lengths {
        let (name, content) = split(rest, file.name);
        match str::from_utf8(name) {
            Ok(_) => {}
            Err(_) => return false,
        }
        let (_, behind) = split(content, file.content);
        rest = behind;
    }
    true
}

/// The content of the last of the files with this name, or what was held before them.
pub fn last_of<'a>(
    before: Option<&'a [u8]>,
    bytes: &'a [u8],
    lengths: &[FileLengths],
    name: &[u8],
) -> Option<&'a [u8]>
    ensures { option_copied result ≡ fold (held_after name.now) (option_copied before.entry) (files_in bytes.now lengths.now) }
{
    let mut held = before;
    let mut rest = bytes;
    for file in lengths {
        let (its_name, behind) = split(rest, file.name);
        let (content, behind) = split(behind, file.content);
        rest = behind;
        if its_name == name {
            held = Some(content);
        }
    }
    held
}

/// Appends a file. A refusal changes nothing.
pub fn append(
    bytes: &mut Vec<u8>,
    lengths: &mut Vec<FileLengths>,
    name: &[u8],
    content: &[u8],
) -> Result<(), NoMemory>
    requires { FilesAddUp bytes.old.items lengths.old.items }
    ensures ok { OnOk result (files_in bytes.new.items lengths.new.items ≡ files_in bytes.old.items lengths.old.items ++ (name.now, content.now) ∷ []) }
    ensures err_bytes { OnErr result (bytes.new.items ≡ bytes.old.items) }
    ensures err_lengths { OnErr result (lengths.new.items ≡ lengths.old.items) }
    ensures adds_up { FilesAddUp bytes.new.items lengths.new.items }
{
    if bytes.reserve(name.len() + content.len()).is_err() {
        return Err(NoMemory);
    }
    let file = FileLengths {
        name: name.len() as u64,
        content: content.len() as u64,
    };
    if lengths.push(file).is_err() {
        return Err(NoMemory);
    }
    extend(bytes, name);
    extend(bytes, content);
    Ok(())
}

/// Appends the bytes, for which there is room.
fn extend(bytes: &mut Vec<u8>, more: &[u8])
    requires { vec_len bytes.old + length more.now ≤ vec_capacity bytes.old }
    ensures items { bytes.new.items ≡ bytes.old.items ++ more.now }
    ensures count { vec_len bytes.new ≡ vec_len bytes.old + length more.now }
    ensures capacity { vec_capacity bytes.old ≤ vec_capacity bytes.new }
{
    bytes.extend_from_slice(more).unwrap();
}
