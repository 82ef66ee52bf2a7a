//! Lists, boxes, texts, names and words.
use anyhow::{Result, bail};
use ms_edge::CommandLine;
use ms_list::{Boxed, List, Name, Text};
use std::io;

pub fn tell(rt: &HostRuntime) -> Result<()> {
    println!(rt; "Lists, boxes, texts, names and words")?;
    lists(rt)?;
    list_of_vector(rt)?;
    boxes(rt)?;
    texts(rt)?;
    names(rt)?;
    words(rt)
}

fn lists(rt: &HostRuntime) -> Result<()> {
    let mut list = List::new(rt.alloc());
    fill_list(rt, &mut list)
}

fn fill_list(rt: &HostRuntime, list: &mut List<u64>) -> Result<()> {
    println!(rt; "a new list is empty: {}", list.is_empty())?;
    if list.push(3).is_err() || list.push(5).is_err() {
        bail!("no memory for a list");
    }
    print_list(rt, list)?;
    Ok(())
}

fn print_list(rt: &HostRuntime, list: &List<u64>) -> io::Result<()> {
    println!(rt; "with 3 and 5 it is empty: {}", list.is_empty())?;
    println!(rt; "it has {} items, {:?}", list.len(), list.slice())?;
    if list.len() == 2 {
        println!(rt; "the first is {}, the second {}", list.get(0), list.get(1))?;
    }
    Ok(())
}

fn list_of_vector(rt: &HostRuntime) -> Result<()> {
    let made = List::from(vec![in rt.alloc(); 7u8, 8, 9]?);
    println!(rt; "a list of a vector has {:?}", made.slice())?;
    Ok(())
}

fn boxes(rt: &HostRuntime) -> Result<()> {
    let Ok(boxed) = Boxed::new(rt.alloc(), 7u64) else {
        bail!("no memory for a box");
    };
    println!(rt; "a box of 7 has {}", boxed.get())?;
    println!(rt; "out of it comes {}", boxed.into_inner())?;
    Ok(())
}

fn texts(rt: &HostRuntime) -> Result<()> {
    let text = Text::new(rt.alloc(), "caf\u{e9}")?;
    print_bytes(rt, "text", text.text(), text.bytes())?;
    Ok(())
}

fn names(rt: &HostRuntime) -> Result<()> {
    let name = Name::new(rt.alloc(), "x'")?;
    print_bytes(rt, "name", name.text(), name.bytes())?;
    Ok(())
}

fn print_bytes(rt: &HostRuntime, kind: &str, text: &str, bytes: &[u8]) -> io::Result<()> {
    println!(rt; "the {kind} {text} has the bytes {bytes:?}")
}

fn words(rt: &HostRuntime) -> Result<()> {
    let mut words = CommandLine::new(rt.alloc());
    push_words(rt, &mut words)
}

fn push_words(rt: &HostRuntime, words: &mut CommandLine) -> Result<()> {
    words.push("decide")?;
    words.push("t.mona")?;
    print_words(rt, words.slice())?;
    Ok(())
}

fn print_words(rt: &HostRuntime, words: &[Text]) -> io::Result<()> {
    println!(rt; "{} words", words.len())?;
    for word in words {
        println!(rt; "a word is {}", word.text())?;
    }
    Ok(())
}
