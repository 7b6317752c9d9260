//! Plays the cases of standard input over disks in memory, of which one fails or stops, and prints each that is answered otherwise, and
//! then `N cases, M differ`. A block of cases has its kind in the first line: `play` has the kinds.
#![tactic(auto)]

mod accounts;
mod bounded;
mod chapters;
mod creation;
mod disk_work;
mod disks;
mod failing_calls;
mod moments;
mod series;
mod stories;
mod trial_disks;

use dh_test_kit::{Tally, blocks_in, compare};
use disk_work::Work;
use disks::Failures;
use series::Recoveries;
use std::io;

fn play(rt: &HostRuntime, tally: &mut Tally, kind: &str, lines: &str) -> io::Result<()> {
    match kind {
        "agencies on disks" => disks::play(rt, tally, lines, Failures::None),
        "agencies on disks that fail" => disks::play(rt, tally, lines, Failures::Once),
        "agencies on disks that fail and are recovered" => {
            disks::play(rt, tally, lines, Failures::Twice)
        }
        "calls on disks that fail" => failing_calls::play(rt, tally, lines, Work::Look),
        "calls on disks that fail and are recovered" => {
            failing_calls::play(rt, tally, lines, Work::Recover)
        }
        "calls on disks that fail and are migrated" => {
            failing_calls::play(rt, tally, lines, Work::Line("migrate"))
        }
        "agencies made on disks that fail" => creation::play(rt, tally),
        "lives" => series::play(rt, tally, lines, Recoveries::Whole),
        "lives and recoveries" => series::play(rt, tally, lines, Recoveries::BehindThreeStops),
        "lives and two recoveries" => series::play(rt, tally, lines, Recoveries::BehindFirstStop),
        "stopped lives" => moments::play(rt, tally, lines),
        _ => compare(rt, tally, kind, "no such kind", "a kind"),
    }
}

fn main(rt: HostRuntime) -> io::Result<()> {
    let text = io::read_to_string(rt.alloc(), rt.reader())?;
    let mut tally = Tally::new();
    for (kind, lines) in blocks_in(rt.alloc(), text.as_str())? {
        play(&rt, &mut tally, kind, lines)?;
    }
    println!(rt; "{tally}")
}
