//! Disks in memory that do their work up to a measure, and fail past it.

use crate::bounded::Bounded;
use dh_lives::{MeasuredDisk, Measures, Stopping, Which, memory};
use dh_test_kit::Tally;
use sqlite::{Error, ErrorCode};
use sqlite_disk::{Disk, Memory};
use std::alloc::Global;
use std::io;

/// A disk that fails past a measure, and what the cases know of it.
pub trait TrialDisk: MeasuredDisk {
    /// Whether a call has failed, or the next one would.
    fn is_at_its_end(&mut self) -> bool;

    /// What is told of such a disk before its measure.
    fn words() -> &'static str;

    /// Why files are not opened of which such a disk is one.
    fn failure() -> Error;
}

impl TrialDisk for Stopping {
    fn is_at_its_end(&mut self) -> bool {
        !self.may_be_used() || self.len().is_err()
    }

    fn words() -> &'static str {
        "stops after"
    }

    fn failure() -> Error {
        Error::SqliteFailure(ErrorCode::SystemIoFailure)
    }
}

const PAGE: usize = 4096;

/// It has room for so many pages more.
pub type Full = Bounded<Memory>;

impl MeasuredDisk for Full {
    fn over(alloc: Global, bytes: &[u8], measure: u64) -> io::Result<Full> {
        let room = PAGE.saturating_mul(measure as usize);
        let bound = bytes.len().saturating_add(room);
        Ok(Bounded::new(memory(alloc, bytes)?, bound))
    }

    fn bytes(&self) -> &[u8] {
        self.inner().bytes()
    }
}

impl TrialDisk for Full {
    fn is_at_its_end(&mut self) -> bool {
        self.has_refused()
    }

    fn words() -> &'static str {
        "has pages left:"
    }

    fn failure() -> Error {
        Error::SqliteFailure(ErrorCode::DiskFull)
    }
}

/// The two files, in the order in which they are made to fail.
pub const BOTH: [Which; 2] = [Which::Journal, Which::Database];

/// What the file is called in the cases.
pub fn name_of(which: Which) -> &'static str {
    match which {
        Which::Journal => "log",
        Which::Database => "file",
    }
}

/// What is done on disks of which one fails past a measure.
#[derive(Clone, Copy)]
pub struct Failure<'a> {
    pub done: &'a str,
    pub which: Which,
    pub measure: u64,
}

impl Failure<'_> {
    /// The measures of both disks.
    pub fn measures(self) -> Measures {
        Measures::of(self.which, self.measure)
    }

    /// Counts a case of it on such disks, and prints it with its answer where that is not the one wanted.
    pub fn compare<D: TrialDisk>(
        self,
        rt: &HostRuntime,
        tally: &mut Tally,
        got: &str,
        want: &str,
    ) -> io::Result<()> {
        if tally.compare(got, want) {
            return Ok(());
        }
        let (file, words) = (name_of(self.which), D::words());
        println!(rt;
            "{}: the {file} {words} {} -> {got}",
            self.done, self.measure
        )
    }
}
