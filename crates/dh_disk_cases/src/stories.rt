//! The lives of a block. Those before the one that is stopped are played once, and the others behind them with each stop that is tried.

use crate::chapters::{Chapter, Mark, Stops, lives_of, place_of};
use dh_lives::{Account, Lived, Rehearsed, live_behind, live_through, rehearse, rehearse_behind};
use dh_test_kit::{Block, Tally, Unreadable, compare, january};
use dh_types::Fault;
use std::alloc::{AllocError, Global};
use std::io;

/// Why lives are not played.
#[derive(Clone, Copy)]
pub enum Unplayed {
    /// A command is not read.
    Unreadable,
    Fault(Fault),
}

impl From<Unreadable> for Unplayed {
    fn from(_why: Unreadable) -> Unplayed {
        Unplayed::Unreadable
    }
}

impl From<Fault> for Unplayed {
    fn from(fault: Fault) -> Unplayed {
        Unplayed::Fault(fault)
    }
}

impl From<AllocError> for Unplayed {
    fn from(_error: AllocError) -> Unplayed {
        Unplayed::Fault(Fault::Memory)
    }
}

impl Unplayed {
    fn text(self, alloc: Global) -> Result<String, AllocError> {
        match self {
            Unplayed::Unreadable => "not read".to_string(alloc),
            Unplayed::Fault(fault) => fault.to_string(alloc),
        }
    }
}

/// What was played. Where it was not, the case differs.
pub fn if_played<T>(
    rt: &HostRuntime,
    tally: &mut Tally,
    case: &str,
    played: Result<T, Unplayed>,
) -> io::Result<Option<T>> {
    match played {
        Ok(played) => Ok(Some(played)),
        Err(why) => {
            let got = why.text(rt.alloc())?;
            compare(rt, tally, case, got.as_str(), "played")?;
            Ok(None)
        }
    }
}

/// A block, its lives, and the first of these as they were played.
#[derive(Clone, Copy)]
pub struct Story<'a> {
    pub block: &'a Block,
    pub chapters: &'a [Chapter],
    pub behind: &'a Rehearsed,
}

impl<'a> Story<'a> {
    pub fn of(block: &'a Block, chapters: &'a [Chapter], behind: &'a Rehearsed) -> Story<'a> {
        Story {
            block,
            chapters,
            behind,
        }
    }
}

fn add_copies(alloc: Global, lives: &mut Vec<Lived>, more: &[Lived]) -> Result<(), AllocError> {
    for lived in more {
        lives.push(Lived {
            recovered: lived.recovered,
            replies: Vec::from_slice(alloc, &lived.replies)?,
            cut: lived.cut,
        })?;
    }
    Ok(())
}

// What came of all lives of the story, where this came of those behind its first.
fn all_lives(alloc: Global, story: Story<'_>, more: &[Lived]) -> Result<Vec<Lived>, AllocError> {
    let mut lives = Vec::new(alloc);
    add_copies(alloc, &mut lives, &story.behind.lives)?;
    add_copies(alloc, &mut lives, more)?;
    Ok(lives)
}

/// The lives before the one that is stopped.
pub fn begun(alloc: Global, chapters: &[Chapter]) -> Result<Rehearsed, Unplayed> {
    let end = place_of(chapters, Mark::Life);
    let lives = lives_of(alloc, chapters, 0, end, Stops::NONE)?;
    Ok(live_through(alloc, january(), &lives)?)
}

/// The lives up to a place among the chapters, with these stops.
pub fn played_up_to(
    alloc: Global,
    story: Story<'_>,
    end: usize,
    stops: Stops,
) -> Result<Rehearsed, Unplayed> {
    let lives = lives_of(alloc, story.chapters, story.behind.lives.len(), end, stops)?;
    let Rehearsed { lives, files } = live_behind(alloc, story.behind, &lives)?;
    Ok(Rehearsed {
        lives: all_lives(alloc, story, &lives)?,
        files,
    })
}

/// The account of all lives, with these stops, where the first are not played again.
pub fn account_of(alloc: Global, story: Story<'_>, stops: Stops) -> Result<Account, Unplayed> {
    let begin = story.behind.lives.len();
    let lives = lives_of(alloc, story.chapters, begin, story.chapters.len(), stops)?;
    let Account { lives, books } = rehearse_behind(alloc, story.behind, &lives)?;
    Ok(Account {
        lives: all_lives(alloc, story, &lives)?,
        books,
    })
}

/// The account of all lives, with these stops, where all are played.
pub fn whole_account_of(
    alloc: Global,
    story: Story<'_>,
    stops: Stops,
) -> Result<Account, Unplayed> {
    let lives = lives_of(alloc, story.chapters, 0, story.chapters.len(), stops)?;
    Ok(rehearse(alloc, january(), &lives)?)
}
