//! Loads: the declarations that they give, and the names that they note.
use crate::told::{mode_word, told};
use anyhow::{Result, bail};
use ms_edge::{MemFiles, Refusal};
use ms_include::{load, load_bytes};
use ms_list::{Bytes, List, NoMemory, Text, let_go, push};
use ms_logic::Loaded;
use std::alloc::{AllocError, Global};

pub fn tell(rt: &HostRuntime) -> Result<()> {
    println!(rt; "Loads")?;
    load_files(rt)?;
    for text in [
        "ws1s; var2 P; P = P;",
        "true; include \"b\"; include \"c\";",
        "true; @",
    ] {
        load_text(rt, text)?;
    }
    Ok(())
}

fn load_files(rt: &HostRuntime) -> Result<()> {
    let mut files = files_of(rt.alloc())?;
    load_each(rt, &mut files)
}

fn load_each(rt: &HostRuntime, files: &mut MemFiles) -> Result<()> {
    for name in ["empty", "header", "twice", "t"] {
        load_file(rt, files, name)?;
    }
    Ok(())
}

/// Files in memory.
fn files_of(alloc: Global) -> Result<MemFiles, NoMemory> {
    let mut files = MemFiles::new(alloc, 0, 0, List::new(alloc), List::new(alloc))?;
    put_files(&mut files)?;
    Ok(files)
}

fn put_files(files: &mut MemFiles) -> Result<(), NoMemory> {
    files.put("empty", b"")?;
    files.put("header", b"m2l-str; true; false;")?;
    files.put("twice", b"include \"v\"; include \"v\"; P sub Q;")?;
    files.put("v", b"var2 P, Q;")?;
    files.put("t", b"include \"b\"; include \"d\"; include \"e\";")?;
    files.put("b", b"include \"c\";")?;
    files.put("c", b"")?;
    files.put("d", b"")
}

/// Loads a file, where the name of another is noted before.
fn load_file(rt: &HostRuntime, files: &mut MemFiles, name: &str) -> Result<()> {
    let mut names = noted_before(rt.alloc())?;
    tell_load(rt, files, name, &mut names)
}

fn noted_before(alloc: Global) -> Result<List<Text>, NoMemory> {
    let mut names = List::new(alloc);
    push(&mut names, Text::new(alloc, "earlier")?)?;
    Ok(names)
}

fn tell_load(
    rt: &HostRuntime,
    files: &mut MemFiles,
    name: &str,
    names: &mut List<Text>,
) -> Result<()> {
    if names.len() > 9 {
        bail!("more names than were noted");
    }
    print_answer(rt, load(rt.alloc(), files, name, names))?;
    let noted = joined(rt.alloc(), names.slice())?;
    println!(rt; "noted: {noted}")?;
    Ok(())
}

/// Loads a text and prints the answer.
fn load_text(rt: &HostRuntime, text: &str) -> Result<()> {
    let bytes = Bytes::from(Vec::from_slice(rt.alloc(), text.as_bytes())?);
    if bytes.len() > 1_048_576 {
        bail!("the text is too long");
    }
    print_answer(rt, load_bytes(rt.alloc(), "generated", bytes))
}

fn print_answer(rt: &HostRuntime, answer: Result<Loaded, Refusal>) -> Result<()> {
    let printed = match &answer {
        Ok(loaded) => print_loaded(rt, loaded),
        Err(refusal) => print_refusal(rt, refusal),
    };
    let_go(answer);
    printed
}

fn print_loaded(rt: &HostRuntime, loaded: &Loaded) -> Result<()> {
    let mode = mode_word(loaded.mode);
    let count = loaded.items.len();
    let files = joined(rt.alloc(), loaded.files.slice())?;
    println!(rt; "{mode}, {count} declarations, of {files}")?;
    Ok(())
}

fn print_refusal(rt: &HostRuntime, refusal: &Refusal) -> Result<()> {
    let told = told(rt.alloc(), refusal)?;
    println!(rt; "refused: {told}")?;
    Ok(())
}

/// The texts with a comma between them.
fn joined(alloc: Global, texts: &[Text]) -> Result<String, AllocError> {
    let mut made = String::new(alloc);
    push_joined(&mut made, texts)?;
    Ok(made)
}

fn push_joined(made: &mut String, texts: &[Text]) -> Result<(), AllocError> {
    for (i, text) in texts.iter().enumerate() {
        if i > 0 {
            made.push_str(", ")?;
        }
        made.push_str(text.text())?;
    }
    Ok(())
}
