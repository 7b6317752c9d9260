//! Plays the cases of `desk`, on real files in the folder where it runs. It prints each that ends otherwise than wanted, and then
//! `N cases, M differ`.
//!
//! A block of cases has its kind in the first line, and is the life of one path, which is written `F`. Texts have escapes.
#![tactic(auto)]

mod answers_in_turn;
mod consoles;
mod edits;
mod failures;
mod forms;
mod haste;
mod imports;
mod large;
mod lives;
mod manual;
mod many;
mod moved_files;
mod other_programs;
mod pages;
mod peers;
mod runs;
mod second_runs;
mod slow_peers;
mod unasked;
mod unclosable_files;
mod ways;

use dh_test_kit::{Tally, blocks_in};
use std::io;

fn play(rt: &HostRuntime, tally: &mut Tally, kind: &str, lines: &str) -> io::Result<()> {
    match kind {
        "edited files" => edits::play(rt, tally, lines),
        "edited files of the first version" => edits::play_first(rt, tally, lines),
        "answers in turn" => answers_in_turn::play(rt, tally, lines),
        "an import" => imports::play(rt, tally, lines),
        "large offices" => large::play(rt, tally, lines),
        "long inputs" => many::play(rt, tally, lines),
        "the manual and the examples" => manual::play(rt, tally, lines),
        "places with which another program meddles" => other_programs::play(rt, tally, lines),
        "peers" => peers::play(rt, tally, lines),
        "second runs" => second_runs::play(rt, tally, lines),
        "slow peers" => slow_peers::play(rt, tally, lines),
        "unasked" => unasked::play(rt, tally, lines),
        "a reader that fails" => failures::play_reader(rt, tally, lines),
        "a writer that fails" => failures::play_writer(rt, tally, 3, lines),
        "bad words to a writer that fails" => failures::play_writer(rt, tally, 2, lines),
        _ => lives::play(rt, tally, lines),
    }
}

fn main(rt: HostRuntime) -> io::Result<()> {
    let text = io::read_to_string(rt.alloc(), rt.reader())?;
    let mut tally = Tally::new();
    for (kind, lines) in blocks_in(rt.alloc(), text.as_str())? {
        play(&rt, &mut tally, kind, lines)?;
    }
    println!(rt; "{tally}")
}
