//! Sinks in memory, and standard output.
use crate::shown;
use anyhow::Result;
use ms_edge::{MemSink, Sink, SinkStop, StdSink, write_all};
use ms_list::List;
use std::alloc::Global;
use std::io;

/// A sink that takes so many bytes in a piece and at all, and fails at the listed pieces; and a text for it.
#[derive(Clone, Copy)]
struct Case {
    piece: u64,
    room: u64,
    failing: &'static [u64],
    text: &'static str,
}

const CASES: [Case; 6] = [
    Case {
        piece: 3,
        room: 99,
        failing: &[],
        text: "contingent",
    },
    Case {
        piece: 3,
        room: 99,
        failing: &[1],
        text: "contingent",
    },
    Case {
        piece: 1,
        room: 4,
        failing: &[],
        text: "valid",
    },
    Case {
        piece: 9,
        room: 5,
        failing: &[],
        text: "valid",
    },
    Case {
        piece: 9,
        room: 9,
        failing: &[0],
        text: "valid",
    },
    Case {
        piece: 9,
        room: 0,
        failing: &[0],
        text: "",
    },
];

pub fn tell(rt: &HostRuntime) -> Result<()> {
    println!(rt; "Sinks")?;
    for case in CASES {
        write_case(rt, case)?;
    }
    write_pieces(rt)?;
    write_out(rt)
}

fn write_case(rt: &HostRuntime, case: Case) -> Result<()> {
    let mut sink = sink_of(rt.alloc(), case)?;
    write_text(rt, &mut sink, case.text)?;
    Ok(())
}

fn sink_of(alloc: Global, case: Case) -> Result<MemSink> {
    let failing = List::from(Vec::from_slice(alloc, case.failing)?);
    Ok(MemSink::new(alloc, case.piece.max(1), case.room, failing)?)
}

fn write_text(rt: &HostRuntime, sink: &mut MemSink, text: &str) -> io::Result<()> {
    let answer = write_all(sink, text.as_bytes());
    println!(rt; "of \"{text}\" it took \"{}\"", shown(sink.bytes()))?;
    print_stop(rt, answer)
}

/// A line on standard output.
fn write_out(rt: &HostRuntime) -> Result<()> {
    let mut out = StdSink::new(rt.clone()?);
    let answer = write_all(&mut out, b"a line of the sink\n");
    print_stop(rt, answer)?;
    Ok(())
}

fn print_stop(rt: &HostRuntime, answer: Result<(), SinkStop>) -> io::Result<()> {
    match answer {
        Ok(()) => println!(rt; "all of it"),
        Err(stop) => println!(rt; "it failed after {} bytes", stop.taken),
    }
}

/// Two pieces of a sink that takes two bytes in a piece, and fails at the second.
fn write_pieces(rt: &HostRuntime) -> Result<()> {
    let failing = List::from(vec![in rt.alloc(); 1u64]?);
    let mut sink = MemSink::new(rt.alloc(), 2, 9, failing)?;
    write_twice(rt, &mut sink)?;
    Ok(())
}

fn write_twice(rt: &HostRuntime, sink: &mut MemSink) -> io::Result<()> {
    for _ in 0..2 {
        match sink.write(b"abc") {
            Ok(count) => println!(rt; "of a piece of 3 bytes it takes {count}")?,
            Err(failed) => println!(rt; "of a piece of 3 bytes it takes none: {failed}")?,
        }
    }
    Ok(())
}
