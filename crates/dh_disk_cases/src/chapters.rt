//! The lives of a block of lines. The first begins with the block; a line `life` begins another, `life, stopped` the one that is
//! stopped, and `recovery, stopped` one of no commands whose recovery is stopped.

use dh_agency_test_kit::table_of;
use dh_lives::{Life, Stop};
use dh_test_kit::{Block, Unreadable, command, parted};
use std::alloc::{AllocError, Global};

/// Which of the stops a life has.
#[derive(Clone, Copy, PartialEq, Eq)]
pub enum Mark {
    Whole,
    Life,
    Recovery,
}

/// The stops that are tried.
#[derive(Clone, Copy)]
pub struct Stops {
    pub life: Option<Stop>,
    pub recovery: Option<Stop>,
}

impl Stops {
    pub const NONE: Stops = Stops {
        life: None,
        recovery: None,
    };

    fn of(self, mark: Mark) -> Option<Stop> {
        match mark {
            Mark::Whole => None,
            Mark::Life => self.life,
            Mark::Recovery => self.recovery,
        }
    }
}

/// The lines that are told in a life, each with what is wanted, and its mark.
#[derive(Drop)]
pub struct Chapter {
    pub lines: Vec<String>,
    pub mark: Mark,
}

fn begin(alloc: Global, chapters: &mut Vec<Chapter>, mark: Mark) -> Result<(), AllocError> {
    chapters.push(Chapter {
        lines: Vec::new(alloc),
        mark,
    })?;
    Ok(())
}

// Whether the words are told, and do not ask for rows.
fn is_told(words: &str) -> bool {
    table_of(words).is_none() && !words.contains(" leaves,")
}

fn add_told(alloc: Global, chapters: &mut [Chapter], line: &str) -> Result<(), AllocError> {
    let (words, _) = parted(line);
    if !is_told(words) {
        return Ok(());
    }
    if let Some(chapter) = chapters.last_mut() {
        chapter.lines.push(line.to_string(alloc)?)?;
    }
    Ok(())
}

fn add_line(alloc: Global, chapters: &mut Vec<Chapter>, line: &str) -> Result<(), AllocError> {
    match line {
        "life" => begin(alloc, chapters, Mark::Whole),
        "life, stopped" => begin(alloc, chapters, Mark::Life),
        "recovery, stopped" => begin(alloc, chapters, Mark::Recovery),
        _ => add_told(alloc, chapters, line),
    }
}

/// The lives of the block, with the lines that it stands after.
pub fn chapters_of(alloc: Global, block: &Block) -> Result<Vec<Chapter>, AllocError> {
    let mut chapters = Vec::new(alloc);
    begin(alloc, &mut chapters, Mark::Whole)?;
    for line in &block.all {
        add_line(alloc, &mut chapters, line.as_str())?;
    }
    Ok(chapters)
}

// The life of the chapter.
fn life_of(alloc: Global, chapter: &Chapter, stops: Stops) -> Result<Life, Unreadable> {
    let mut commands = Vec::new(alloc);
    for line in &chapter.lines {
        let (words, _) = parted(line.as_str());
        commands.push(command(alloc, words)?)?;
    }
    Ok(Life {
        commands,
        stop: stops.of(chapter.mark),
    })
}

/// How many chapters come before the first that has the mark.
pub fn place_of(chapters: &[Chapter], mark: Mark) -> usize {
    for (at, chapter) in chapters.iter().enumerate() {
        if chapter.mark == mark {
            return at;
        }
    }
    chapters.len()
}

/// The lives of the chapters from one on up to another, which is not among them, with the stops.
pub fn lives_of(
    alloc: Global,
    chapters: &[Chapter],
    begin: usize,
    end: usize,
    stops: Stops,
) -> Result<Vec<Life>, Unreadable> {
    let mut lives = Vec::new(alloc);
    for chapter in chapters.iter().skip(begin).take(end.saturating_sub(begin)) {
        lives.push(life_of(alloc, chapter, stops)?)?;
    }
    Ok(lives)
}
