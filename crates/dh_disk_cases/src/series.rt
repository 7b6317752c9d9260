//! Lives of which one is stopped after each number of calls of each file in turn, until nothing is interrupted; and recoveries that are stopped
//! behind such a stop.

use crate::accounts::{compare_account, is_same};
use crate::chapters::{Mark, Stops, chapters_of, place_of};
use crate::stories::{Story, account_of, begun, if_played, played_up_to, whole_account_of};
use crate::trial_disks::{BOTH, name_of};
use dh_agency_test_kit::{books_text, compare_tables};
use dh_lives::{Account, Stop, Which};
use dh_test_kit::{Block, Tally, compare, script};
use std::alloc::{AllocError, Global};
use std::io;

/// What is tried of the recoveries that are marked as stopped.
#[derive(Clone, Copy, PartialEq, Eq)]
pub enum Recoveries {
    /// They are not stopped.
    Whole,
    /// They are stopped after each number of calls, behind three stops of the life: the first that cuts its first command, the first
    /// that cuts its second, and the last that cuts any.
    BehindThreeStops,
    /// The same, behind the first of these.
    BehindFirstStop,
}

/// More than either file is asked to do in a life.
const MOST: u32 = 1000;

fn add_stop(alloc: Global, text: &mut String, what: &str, stop: Stop) -> Result<(), AllocError> {
    let words = format!(in alloc;
        ", {what}: the {} stops after {}",
        name_of(stop.file),
        stop.after
    )?;
    text.push_str(words.as_str())
}

// What the case is called.
fn case_of(alloc: Global, story: Story<'_>, stops: Stops) -> Result<String, AllocError> {
    let mut text = story.block.name.as_str().to_string(alloc)?;
    if let Some(stop) = stops.life {
        add_stop(alloc, &mut text, "a life", stop)?;
    }
    if let Some(stop) = stops.recovery {
        add_stop(alloc, &mut text, "a recovery", stop)?;
    }
    Ok(text)
}

/// Plays the lives with these stops and compares their account, and answers it, if there is one.
pub fn play_lives(
    rt: &HostRuntime,
    tally: &mut Tally,
    story: Story<'_>,
    stops: Stops,
) -> io::Result<Option<Account>> {
    let case = case_of(rt.alloc(), story, stops)?;
    let account = account_of(rt.alloc(), story, stops);
    let Some(account) = if_played(rt, tally, case.as_str(), account)? else {
        return Ok(None);
    };
    compare_account(rt, tally, case.as_str(), story.chapters, &account)?;
    Ok(Some(account))
}

/// Plays all lives with these stops, the first of them too, and compares their account with this one.
pub fn compare_whole(
    rt: &HostRuntime,
    tally: &mut Tally,
    story: Story<'_>,
    stops: Stops,
    account: &Account,
) -> io::Result<()> {
    let case = case_of(rt.alloc(), story, stops)?;
    let whole = whole_account_of(rt.alloc(), story, stops);
    let Some(whole) = if_played(rt, tally, case.as_str(), whole)? else {
        return Ok(());
    };
    let got = if is_same(rt.alloc(), &whole, account)? {
        "the same"
    } else {
        "another account"
    };
    compare(rt, tally, case.as_str(), got, "the same")
}

/// Compares the books in the end with the rows that the block names.
pub fn compare_end(
    rt: &HostRuntime,
    tally: &mut Tally,
    block: &Block,
    account: &Account,
) -> io::Result<()> {
    match &account.books {
        Some(books) => {
            let text = books_text(rt.alloc(), books)?;
            compare_tables(rt, tally, block, text.as_str())
        }
        None => compare(rt, tally, block.name.as_str(), "no books", "books"),
    }
}

// The command that was interrupted, counted from 0 within its life.
fn cut_of(account: &Account) -> Option<usize> {
    for lived in &account.lives {
        if lived.cut.is_some() {
            return lived.cut;
        }
    }
    None
}

/// Whether each recovery returned.
pub fn are_all_recovered(account: &Account) -> bool {
    for lived in &account.lives {
        if !lived.recovered {
            return false;
        }
    }
    true
}

// What a stop hits: a recovery, or a command, or nothing.
#[derive(Clone, Copy, PartialEq, Eq)]
struct Hit {
    are_all_recovered: bool,
    cut: Option<usize>,
}

impl Hit {
    const NOTHING: Hit = Hit {
        are_all_recovered: true,
        cut: None,
    };

    fn of(account: &Account) -> Hit {
        Hit {
            are_all_recovered: are_all_recovered(account),
            cut: cut_of(account),
        }
    }
}

/// After how many calls a life is stopped for the first time in its first command, in its second, and for the last time in any.
#[derive(Clone, Copy)]
pub struct Cuts {
    pub first: Option<u32>,
    pub second: Option<u32>,
    pub last: Option<u32>,
}

impl Cuts {
    const NONE: Cuts = Cuts {
        first: None,
        second: None,
        last: None,
    };

    fn note(&mut self, cut: Option<usize>, after: u32) {
        match cut {
            Some(0) => self.first = self.first.or(Some(after)),
            Some(1) => self.second = self.second.or(Some(after)),
            _ => {}
        }
        if cut.is_some() {
            self.last = Some(after);
        }
    }
}

/// Stops the life after each number of calls of the file, until nothing is interrupted, and answers which of these stops cut which command. All
/// lives are played again for the first stop that hits something else than the one before it.
pub fn play_stops(
    rt: &HostRuntime,
    tally: &mut Tally,
    story: Story<'_>,
    file: Which,
) -> io::Result<Cuts> {
    let mut cuts = Cuts::NONE;
    let mut last = None;
    for after in 0..MOST {
        let stops = Stops {
            life: Some(Stop { file, after }),
            recovery: None,
        };
        let Some(account) = play_lives(rt, tally, story, stops)? else {
            return Ok(cuts);
        };
        let hit = Hit::of(&account);
        cuts.note(hit.cut, after);
        if last != Some(hit) {
            compare_whole(rt, tally, story, stops, &account)?;
        }
        if hit == Hit::NOTHING {
            compare_end(rt, tally, story.block, &account)?;
            return Ok(cuts);
        }
        last = Some(hit);
    }
    compare(rt, tally, story.block.name.as_str(), "cut", "whole")?;
    Ok(cuts)
}

// Stops the recoveries after each number of calls of the file, until each returns. All lives are played again for the first of these
// stops and for the last.
fn play_recoveries_of(
    rt: &HostRuntime,
    tally: &mut Tally,
    story: Story<'_>,
    life: Stop,
    file: Which,
) -> io::Result<()> {
    for after in 0..MOST {
        let stops = Stops {
            life: Some(life),
            recovery: Some(Stop { file, after }),
        };
        let Some(account) = play_lives(rt, tally, story, stops)? else {
            return Ok(());
        };
        let is_last = are_all_recovered(&account);
        if is_last || after == 0 {
            compare_whole(rt, tally, story, stops, &account)?;
        }
        if is_last {
            return Ok(());
        }
    }
    compare(
        rt,
        tally,
        story.block.name.as_str(),
        "not recovered",
        "recovered",
    )
}

// The same of each file, behind such a stop of the life, if there is one.
fn play_recoveries(
    rt: &HostRuntime,
    tally: &mut Tally,
    story: Story<'_>,
    file: Which,
    after: Option<u32>,
) -> io::Result<()> {
    let Some(after) = after else {
        return Ok(());
    };
    let life = Stop { file, after };
    let stops = Stops {
        life: Some(life),
        recovery: None,
    };
    let end = place_of(story.chapters, Mark::Recovery);
    let behind = played_up_to(rt.alloc(), story, end, stops);
    let Some(behind) = if_played(rt, tally, story.block.name.as_str(), behind)? else {
        return Ok(());
    };
    let story = Story {
        behind: &behind,
        ..story
    };
    for other in BOTH {
        play_recoveries_of(rt, tally, story, life, other)?;
    }
    Ok(())
}

// The stops of one file. Those of the log cut both commands.
fn play_file(
    rt: &HostRuntime,
    tally: &mut Tally,
    story: Story<'_>,
    recoveries: Recoveries,
    file: Which,
) -> io::Result<()> {
    let cuts = play_stops(rt, tally, story, file)?;
    if recoveries == Recoveries::Whole {
        return Ok(());
    }
    if file == Which::Journal {
        let are_both_cut = cuts.first.is_some() && cuts.second.is_some();
        let got = if are_both_cut { "cut" } else { "not cut" };
        compare(rt, tally, story.block.name.as_str(), got, "cut")?;
    }
    play_recoveries(rt, tally, story, file, cuts.first)?;
    if recoveries == Recoveries::BehindThreeStops {
        play_recoveries(rt, tally, story, file, cuts.second)?;
        play_recoveries(rt, tally, story, file, cuts.last)?;
    }
    Ok(())
}

fn play_block(
    rt: &HostRuntime,
    tally: &mut Tally,
    block: &Block,
    recoveries: Recoveries,
) -> io::Result<()> {
    let chapters = chapters_of(rt.alloc(), block)?;
    let behind = begun(rt.alloc(), &chapters);
    let Some(behind) = if_played(rt, tally, block.name.as_str(), behind)? else {
        return Ok(());
    };
    let story = Story::of(block, &chapters, &behind);
    for file in BOTH {
        play_file(rt, tally, story, recoveries, file)?;
    }
    Ok(())
}

/// Plays the lives of each block once for each number of calls of each file after which the marked life is stopped, and where it says so
/// once more for each after which its recoveries are. Where nothing is interrupted the rows are compared that the block names.
pub fn play(
    rt: &HostRuntime,
    tally: &mut Tally,
    text: &str,
    recoveries: Recoveries,
) -> io::Result<()> {
    for block in &script(rt.alloc(), text)? {
        play_block(rt, tally, block, recoveries)?;
    }
    Ok(())
}
