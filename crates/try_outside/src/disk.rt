//! Files on disk.
use crate::memory::{print_read, print_write};
use anyhow::Result;
use ms_edge::{DiskFiles, Files};
use std::io;

pub fn tell(rt: &HostRuntime) -> Result<()> {
    println!(rt; "Files on disk")?;
    let mut files = DiskFiles::new(rt.clone()?);
    tell_files(rt, &mut files)
}

fn tell_files(rt: &HostRuntime, files: &mut DiskFiles<HostRuntime>) -> Result<()> {
    reads(rt, files)?;
    let path = new_path(rt)?;
    write_back(rt, files, path.as_str())?;
    Ok(())
}

/// `note.txt` has six bytes; a folder is no file.
fn reads(rt: &HostRuntime, files: &mut DiskFiles<HostRuntime>) -> io::Result<()> {
    for (name, limit) in [
        ("note.txt", 99),
        ("note.txt", 6),
        ("note.txt", 5),
        ("none.txt", 99),
        ("/tmp", 99),
    ] {
        read(rt, files, name, name, limit)?;
    }
    Ok(())
}

/// Reads the file at a path and prints what is answered of it, under its name.
fn read(
    rt: &HostRuntime,
    files: &mut DiskFiles<HostRuntime>,
    path: &str,
    name: &str,
    limit: u64,
) -> io::Result<()> {
    let answer = files.read(rt.alloc(), path, limit);
    print_read(rt, name, limit, &answer)
}

/// The path of a file that is not there.
fn new_path(rt: &HostRuntime) -> Result<String> {
    let id = std::process::id(rt.process());
    Ok(format!(in rt.alloc(); "/tmp/monastr-parts-{id}")?)
}

/// Writes a new file twice, reads it each time, and takes it away.
fn write_back(rt: &HostRuntime, files: &mut DiskFiles<HostRuntime>, path: &str) -> io::Result<()> {
    for (bytes, limit) in [("0123456789", 9), ("0123456789", 10), ("", 0)] {
        let answer = files.write(path, bytes.as_bytes());
        print_write(rt, "a new file", &answer)?;
        read(rt, files, path, "a new file", limit)?;
    }
    std::fs::remove_file(rt, path)?;
    read(rt, files, path, "the file that is gone", 9)?;
    let answer = files.write("/tmp", b"");
    print_write(rt, "a folder", &answer)
}
