//! What is left of an opening that gave no connection for a job.

use sqlite::{Connection, FileStore, Leftover};
use sqlite_disk::Disk;

/// What is left of an opening that gave no connection for a job.
#[derive(Drop)]
pub(crate) enum Remains<D: Disk + Drop> {
    /// It failed, with this left of the files, if it had opened them.
    Unopened(Option<Leftover<D>>),
    /// The store that it gave is not the one that the path has to name, or is not blank where tables are to be made.
    Astray(Connection<FileStore<D>>),
}
