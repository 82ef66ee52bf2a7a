//! Files in memory: reads 1 and writes 2 fail; four writes may be made, of twelve bytes of names and contents.
use crate::shown;
use anyhow::Result;
use ms_edge::{Files, MemFiles, ReadAnswer, WriteFailed};
use ms_list::{Bytes, List, NoMemory, push};
use std::alloc::Global;
use std::io;

pub fn tell(rt: &HostRuntime) -> Result<()> {
    println!(rt; "Files in memory")?;
    let mut files = new_files(rt.alloc())?;
    tell_files(rt, &mut files)
}

fn new_files(alloc: Global) -> Result<MemFiles, NoMemory> {
    let failing_reads = only(alloc, 1)?;
    let failing_writes = only(alloc, 2)?;
    MemFiles::new(alloc, 4, 12, failing_reads, failing_writes)
}

/// The list of one call.
fn only(alloc: Global, call: u64) -> Result<List<u64>, NoMemory> {
    let mut calls = List::new(alloc);
    push(&mut calls, call)?;
    Ok(calls)
}

fn tell_files(rt: &HostRuntime, files: &mut MemFiles) -> Result<()> {
    files.put("a", b"abc")?;
    reads(rt, files)?;
    writes(rt, files)?;
    holdings(rt, files)?;
    files.put("a", b"last")?;
    holdings(rt, files)?;
    Ok(())
}

fn reads(rt: &HostRuntime, files: &mut MemFiles) -> io::Result<()> {
    for (name, limit) in [("a", 3), ("a", 3), ("a", 2), ("b", 9), ("a", 9)] {
        read(rt, files, name, limit)?;
    }
    Ok(())
}

fn read(rt: &HostRuntime, files: &mut MemFiles, name: &str, limit: u64) -> io::Result<()> {
    let answer = files.read(rt.alloc(), name, limit);
    print_read(rt, name, limit, &answer)
}

/// Prints what a read answers.
pub fn print_read(
    rt: &HostRuntime,
    name: &str,
    limit: u64,
    answer: &Result<Bytes, ReadAnswer>,
) -> io::Result<()> {
    match answer {
        Ok(bytes) => println!(rt;
            "reading {name}, {limit} bytes at most: {}",
            shown(bytes.slice())
        ),
        Err(answer) => println!(rt; "reading {name}, {limit} bytes at most: {answer}"),
    }
}

fn writes(rt: &HostRuntime, files: &mut MemFiles) -> io::Result<()> {
    let writes: [(&str, &[u8]); 5] = [
        ("b", b"1234"),
        ("a", b"xy"),
        // This write is listed.
        ("a", b""),
        // It has five bytes, and four are left.
        ("abc", b"zz"),
        // Four writes have been tried.
        ("a", b""),
    ];
    for (name, bytes) in writes {
        let answer = files.write(name, bytes);
        print_write(rt, name, &answer)?;
    }
    Ok(())
}

/// Prints what a write answers.
pub fn print_write(
    rt: &HostRuntime,
    name: &str,
    answer: &Result<(), WriteFailed>,
) -> io::Result<()> {
    match answer {
        Ok(()) => println!(rt; "writing {name}: done"),
        Err(failed) => println!(rt; "writing {name}: {failed}"),
    }
}

fn holdings(rt: &HostRuntime, files: &MemFiles) -> io::Result<()> {
    for name in ["a", "b", "abc"] {
        match files.get(name) {
            Some(bytes) => println!(rt; "{name} holds {}", shown(bytes))?,
            None => println!(rt; "{name} is not there")?,
        }
    }
    Ok(())
}
