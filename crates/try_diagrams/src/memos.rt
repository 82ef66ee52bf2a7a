//! A memo that is too small for what it is told.
use anyhow::Result;
use ms_arena::Ref;
use ms_cache::{Key, Memo};
use ms_list::let_go;
use std::io;

pub fn tell(rt: &HostRuntime) -> Result<()> {
    println!(rt; "A memo of two entries")?;
    let mut memo = Memo::new(rt.alloc(), 2)?;
    let told = tell_answers(rt, &mut memo);
    let_go(memo);
    told
}

fn tell_answers(rt: &HostRuntime, memo: &mut Memo) -> Result<()> {
    for number in 1..4 {
        memo.tell(key(number), Ref::Leaf(number))?;
    }
    for number in 1..4 {
        tell_answer(rt, memo, number)?;
    }
    memo.clear();
    tell_answer(rt, memo, 3)?;
    println!(rt; "{} answers", memo.hits())?;
    Ok(())
}

fn key(number: u32) -> Key {
    Key {
        left: Ref::Leaf(number),
        right: Ref::Inner(number),
    }
}

fn tell_answer(rt: &HostRuntime, memo: &mut Memo, number: u32) -> io::Result<()> {
    match memo.ask(key(number)) {
        Some(Ref::Leaf(value)) => println!(rt; "{number} has become the leaf {value}"),
        Some(Ref::Inner(place)) => println!(rt; "{number} has become the node {place}"),
        None => println!(rt; "nothing is known of {number}"),
    }
}
