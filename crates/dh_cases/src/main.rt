//! Plays the cases of standard input, and prints each that is answered otherwise than wanted, and then `N cases, M differ`. A block of
//! cases has its kind in the first line, and the crates of cases say in `play` which kinds are theirs.
#![tactic(auto)]

use dh_test_kit::{Tally, blocks_in};
use std::io;

fn play(rt: &HostRuntime, tally: &mut Tally, kind: &str, lines: &str) -> io::Result<()> {
    let is_kind = dh_book_cases::play(rt, tally, kind, lines)?
        || dh_store_cases::play(rt, tally, kind, lines)?;
    if is_kind {
        return Ok(());
    }
    tally.add(false);
    println!(rt; "{kind}: no such kind")
}

fn main(rt: HostRuntime) -> io::Result<()> {
    let text = io::read_to_string(rt.alloc(), rt.reader())?;
    let mut tally = Tally::new();
    for (kind, lines) in blocks_in(rt.alloc(), text.as_str())? {
        play(&rt, &mut tally, kind, lines)?;
    }
    println!(rt; "{tally}")
}
