//! Agencies that are made on disks of which one fails: a recovery is tried of what is left, and then a second making.

use crate::disk_work::{Told, Work, found, text_on, told_on};
use crate::disks::tables_after;
use crate::trial_disks::{BOTH, Failure, Full, TrialDisk};
use dh_lives::{Stopping, Which, no_files};
use dh_test_kit::{Tally, compare};
use sqlite::Files;
use sqlite_disk::Crash;
use std::alloc::{AllocError, Global};
use std::io;

// Whether what is left of a making is recovered, and whether an agency can be made over what is left then. The tables in the end
// are given too.
fn taken_up<D: TrialDisk>(
    alloc: Global,
    mut left: Files<D>,
    tables: &str,
) -> Result<(bool, bool, String), AllocError> {
    left.log.crash();
    left.db.crash();
    let (text, mut left) = text_on(alloc, left, Work::Recover);
    let is_recovered = text?.as_str() == tables;
    left.log.crash();
    left.db.crash();
    let (again, left) = told_on(alloc, left, &[]);
    let is_made = matches!(again, Told::Acknowledged(1));
    Ok((is_recovered, is_made, found(alloc, left, Work::Look)?))
}

// An agency made on disks of which one fails past the measure; and whether the making failed.
fn play_making<D: TrialDisk>(
    rt: &HostRuntime,
    tally: &mut Tally,
    failure: Failure<'_>,
    tables: &str,
) -> io::Result<bool> {
    let files = no_files::<D>(rt.alloc(), failure.measures())?;
    let (told, left) = told_on(rt.alloc(), files, &[]);
    let is_told = matches!(told, Told::Acknowledged(1));
    let (is_recovered, is_made, end) = taken_up(rt.alloc(), left, tables)?;
    let got = match (is_recovered, is_made) {
        (true, true) => "both",
        (true, false) => "one of them",
        (false, true) if !is_told => "one of them",
        (false, true) => "made again",
        (false, false) => "neither",
    };
    failure.compare::<D>(rt, tally, got, "one of them")?;
    failure.compare::<D>(rt, tally, end.as_str(), tables)?;
    Ok(!is_told)
}

// More than either disk is asked to do for a making.
const MOST: u64 = 1000;

fn play_makings<D: TrialDisk>(
    rt: &HostRuntime,
    tally: &mut Tally,
    which: Which,
    tables: &str,
) -> io::Result<()> {
    for measure in 0..MOST {
        let failure = Failure {
            done: "an agency made",
            which,
            measure,
        };
        if !play_making::<D>(rt, tally, failure, tables)? {
            return Ok(());
        }
    }
    compare(rt, tally, "an agency on a disk", "not made", "made")
}

/// Makes an agency on disks of which each fails at each measure in turn. Exactly one of a recovery and a second making succeeds behind
/// it, the recovery if the making was answered, and either way the tables are those of a new agency.
pub fn play(rt: &HostRuntime, tally: &mut Tally) -> io::Result<()> {
    let tables = tables_after(rt.alloc(), &[], Work::Look)?;
    for which in BOTH {
        play_makings::<Stopping>(rt, tally, which, tables.as_str())?;
        play_makings::<Full>(rt, tally, which, tables.as_str())?;
    }
    Ok(())
}
