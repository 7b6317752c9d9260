//! Disks in memory that do their work up to a measure, and fail past it.

use crate::lives::Which;
use sqlite::Files;
use sqlite_disk::{Crash, Disk, Fuse, Memory};
use std::alloc::Global;
use std::io;

/// A disk that fails past a measure: so many calls, or so much room.
pub trait MeasuredDisk: Crash + Drop {
    /// A disk that holds the bytes. An error comes where memory runs out.
    fn over(alloc: Global, bytes: &[u8], measure: u64) -> io::Result<Self>;

    fn bytes(&self) -> &[u8];
}

/// A disk that does not fail and holds the bytes, which a power cut leaves. An error comes where memory runs out.
pub fn memory(alloc: Global, bytes: &[u8]) -> io::Result<Memory> {
    let mut disk = Memory::new(alloc);
    disk.write_at(0, bytes)?;
    disk.sync()?;
    Ok(disk)
}

/// It stops after so many calls.
pub type Stopping = Fuse<Memory>;

impl MeasuredDisk for Stopping {
    fn over(alloc: Global, bytes: &[u8], measure: u64) -> io::Result<Stopping> {
        Ok(Fuse::new(memory(alloc, bytes)?, measure))
    }

    fn bytes(&self) -> &[u8] {
        self.inner().bytes()
    }
}

/// How much each disk still does.
#[derive(Clone, Copy)]
pub struct Measures {
    journal: u64,
    database: u64,
}

impl Measures {
    /// Neither fails.
    pub const NO_END: Measures = Measures {
        journal: u64::MAX,
        database: u64::MAX,
    };

    /// One fails past the measure.
    pub fn of(which: Which, measure: u64) -> Measures {
        match which {
            Which::Journal => Measures {
                journal: measure,
                ..Measures::NO_END
            },
            Which::Database => Measures {
                database: measure,
                ..Measures::NO_END
            },
        }
    }
}

/// Empty files. An error comes where memory runs out.
pub fn no_files<D: MeasuredDisk>(alloc: Global, measures: Measures) -> io::Result<Files<D>> {
    Ok(Files {
        log: D::over(alloc, &[], measures.journal)?,
        db: D::over(alloc, &[], measures.database)?,
    })
}

/// Files with the bytes of these. An error comes where memory runs out.
pub fn copy_of<D: MeasuredDisk>(
    alloc: Global,
    files: &Files<D>,
    measures: Measures,
) -> io::Result<Files<D>> {
    Ok(Files {
        log: D::over(alloc, files.log.bytes(), measures.journal)?,
        db: D::over(alloc, files.db.bytes(), measures.database)?,
    })
}
