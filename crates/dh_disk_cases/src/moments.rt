//! Lives that are stopped at moments which the block names by what they leave. The stopped life tells two commands. It is stopped at the
//! first call of the log behind its first command, so that nothing of the second has come to pass; a line `first stop leaves,TABLE`
//! says what the tables are then. A recovery behind it is stopped after each number of calls of the log at which the tables are left as
//! the lines `second stop leaves,TABLE` say.

use crate::chapters::{Mark, Stops, chapters_of, place_of};
use crate::disk_work::{Finding, Work, found_in_turn};
use crate::series::{are_all_recovered, compare_end, compare_whole, play_lives, play_stops};
use crate::stories::{Story, begun, if_played, played_up_to};
use dh_agency_test_kit::rows_of;
use dh_lives::{Measures, Rehearsed, Stop, Which, copy_of};
use dh_test_kit::{Block, Tally, compare, parted, script};
use std::alloc::Global;
use std::io;

// The tables that the lives left, where these may have left the same as the ones before.
fn left_behind(alloc: Global, lives: &Rehearsed, last: &mut Option<Finding>) -> io::Result<String> {
    let files = copy_of(alloc, &lives.files, Measures::NO_END)?;
    Ok(found_in_turn(alloc, files, Work::Look, last)?)
}

// Compares what the first stop leaves.
fn compare_first(
    rt: &HostRuntime,
    tally: &mut Tally,
    block: &Block,
    tables: &str,
) -> io::Result<()> {
    for line in block.lines() {
        let (words, want) = parted(line.as_str());
        if let Some(table) = words.strip_prefix("first stop leaves,") {
            compare(rt, tally, words, rows_of(tables, table), want)?;
        }
    }
    Ok(())
}

// Whether the tables are those that the second stop leaves.
fn is_left_by_second(block: &Block, tables: &str) -> bool {
    for line in block.lines() {
        let (words, want) = parted(line.as_str());
        if let Some(table) = words.strip_prefix("second stop leaves,") {
            if rows_of(tables, table) != want {
                return false;
            }
        }
    }
    true
}

// More than the log is asked to do in a recovery.
const MOST: u32 = 1000;

// Stops the recovery after so many calls of the log; where that is the moment, all lives are played again, and the end is compared with
// the rows that the block names. It answers whether it is the moment, and nothing once the recovery returns.
fn play_second(
    rt: &HostRuntime,
    tally: &mut Tally,
    story: Story<'_>,
    stops: Stops,
    last: &mut Option<Finding>,
) -> io::Result<Option<bool>> {
    let end = place_of(story.chapters, Mark::Recovery).saturating_add(1);
    let behind = played_up_to(rt.alloc(), story, end, stops);
    let Some(behind) = if_played(rt, tally, story.block.name.as_str(), behind)? else {
        return Ok(None);
    };
    let tables = left_behind(rt.alloc(), &behind, last)?;
    let story = Story {
        behind: &behind,
        ..story
    };
    let Some(account) = play_lives(rt, tally, story, stops)? else {
        return Ok(None);
    };
    if are_all_recovered(&account) {
        return Ok(None);
    }
    let is_moment = is_left_by_second(story.block, tables.as_str());
    if is_moment {
        compare_whole(rt, tally, story, stops, &account)?;
        compare_end(rt, tally, story.block, &account)?;
    }
    Ok(Some(is_moment))
}

// Stops the recovery after each number of calls of the log. One of them at least is the moment.
fn play_seconds(
    rt: &HostRuntime,
    tally: &mut Tally,
    story: Story<'_>,
    life: Stop,
    last: &mut Option<Finding>,
) -> io::Result<()> {
    let mut is_met = false;
    for after in 0..MOST {
        let stops = Stops {
            life: Some(life),
            recovery: Some(Stop {
                file: Which::Journal,
                after,
            }),
        };
        match play_second(rt, tally, story, stops, last)? {
            Some(is_moment) => is_met = is_met || is_moment,
            None => break,
        }
    }
    let got = if is_met { "met" } else { "never met" };
    compare(rt, tally, story.block.name.as_str(), got, "met")
}

fn play_story(rt: &HostRuntime, tally: &mut Tally, story: Story<'_>) -> io::Result<()> {
    let cuts = play_stops(rt, tally, story, Which::Journal)?;
    let Some(after) = cuts.second else {
        return compare(rt, tally, story.block.name.as_str(), "not cut", "cut");
    };
    let life = Stop {
        file: Which::Journal,
        after,
    };
    let stops = Stops {
        life: Some(life),
        recovery: None,
    };
    let end = place_of(story.chapters, Mark::Life).saturating_add(1);
    let behind = played_up_to(rt.alloc(), story, end, stops);
    let Some(behind) = if_played(rt, tally, story.block.name.as_str(), behind)? else {
        return Ok(());
    };
    let mut last = None;
    let tables = left_behind(rt.alloc(), &behind, &mut last)?;
    compare_first(rt, tally, story.block, tables.as_str())?;
    let story = Story {
        behind: &behind,
        ..story
    };
    play_seconds(rt, tally, story, life, &mut last)
}

fn play_block(rt: &HostRuntime, tally: &mut Tally, block: &Block) -> io::Result<()> {
    let chapters = chapters_of(rt.alloc(), block)?;
    let behind = begun(rt.alloc(), &chapters);
    let Some(behind) = if_played(rt, tally, block.name.as_str(), behind)? else {
        return Ok(());
    };
    let story = Story::of(block, &chapters, &behind);
    play_story(rt, tally, story)
}

/// Plays the lives of each block.
pub fn play(rt: &HostRuntime, tally: &mut Tally, text: &str) -> io::Result<()> {
    for block in &script(rt.alloc(), text)? {
        play_block(rt, tally, block)?;
    }
    Ok(())
}
