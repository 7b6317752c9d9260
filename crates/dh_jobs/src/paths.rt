//! What a path names, and the place of a new file: who made it, and when it may be taken away.
//!
//! A path may come to name another file between any two calls of the system, so each step asks again which file it names. Only between the
//! last look and a removal nothing can be asked: what another program puts at the path in that moment goes.
//!
//! An opening may give a file another time of making: in a container's image the first opening for writing copies it. So which file it is, the
//! time among that, is noted behind our own opening, and before it the device and the number count.
//!
//! What the system answers is judged by functions with a clause each; beside them stands the call alone.

ghost use Rattle.std.specs.Prelude.{◌≡◌, ◌≢◌, ◌↔◌, Bool, Some, IfErr, IsTrue, OnOk, false};
ghost use Rattle.std.specs.IoError.{error_kind};
ghost use Rattle.std.specs.declared.io.ErrorKind.TheVariants.{WouldBlock};
ghost use Rattle.dh_types.specs.declared.reply.Fault.TheVariants as fault;
ghost use Rattle.dh_agency.specs.Faults.{IsFirstFault};
ghost use Rattle.dh_jobs.specs.Paths.{IsAbsentOrEmpty, IsEmptyFile, IsFoundAs, IsOfStream, IsOpenedAs, IsPlainFile, MayHoldTables, fault_behind, system_fault};

use crate::blank::Blank;
use dh_types::Fault;
use os::RangeLock;
use std::fs::{File, Files, Metadata, OpenOptions};
use std::io::ErrorKind;
use std::os::fd::AsRawFd;
use std::os::unix::fs::{MetadataExt, OpenOptionsExt};
use std::path::PathBuf;
use std::time::SystemTime;
use std::{fs, io};

/// A page of a database has so many bytes at least, so a shorter file is none.
const LEAST_BYTES: u64 = 512;

/// A log of so many bytes has no news: a head of 32, then 8 that begin its first entry, and one that says that none is there.
const EMPTY_LOG_BYTES: u64 = 41;

/// The path of a log is that of its file, and this.
const LOG_SUFFIX: &str = "-wal";

/// The byte that a call of `init` locks. It is the first behind the 512 that SQLite locks of a database.
const INIT_BYTE: u64 = (1 << 30) + 512;

/// Standard error has this descriptor, and the other two streams have lesser ones.
const LAST_STREAM: i32 = 2;

/// Which file a path named: its device, its number there, and when it was made, if the file system knows that.
#[derive(Clone, Copy, Debug, PartialEq, Eq)]
pub struct Identity {
    device: u64,
    number: u64,
    made_at: Option<SystemTime>,
}

// Which file this was found at.
fn identity_of(found: &Metadata) -> Identity {
    Identity {
        device: found.dev(),
        number: found.ino(),
        made_at: found.created().ok(),
    }
}

/// Which file a path named, and when that was written last, if the file system knows that.
#[derive(Clone, Copy, Debug, PartialEq, Eq)]
pub struct Sighting {
    file: Identity,
    written_at: Option<SystemTime>,
}

// As what this was seen.
fn sighting_of(found: &Metadata) -> Sighting {
    Sighting {
        file: identity_of(found),
        written_at: found.modified().ok(),
    }
}

// Whether an opening has the file that was seen. A blank one it has not where that is younger and was written since: where a file went, the opening
// makes a blank one, which may get its number.
fn is_opened_as(seen: Sighting, opened: Sighting, is_blank: bool) -> bool
    ensures { IsTrue result ↔ IsOpenedAs seen opened is_blank }
{
    opened.file.device == seen.file.device
        && opened.file.number == seen.file.number
        && (!is_blank
            || opened.file.made_at == seen.file.made_at
            || opened.written_at == seen.written_at)
}

// Whether the file is this one.
fn is_same(found: Option<Identity>, file: Identity) -> bool
    ensures { IsTrue result ↔ (found ≡ Some file) }
{
    found == Some(file)
}

// Whether the descriptor is that of a standard stream.
fn is_stream(descriptor: i32) -> bool
    ensures { IsTrue result ↔ IsOfStream descriptor }
{
    descriptor <= LAST_STREAM
}

// Want of memory is told as that, and all else as a fault of the store.
fn system_fault(error: io::Error) -> Fault
    ensures value { result ≡ system_fault (error_kind error) }
    ensures first { IsFirstFault result }
{
    match error.kind() {
        ErrorKind::OutOfMemory => Fault::Memory,
        _ => Fault::Store,
    }
}

// Whether it may be a database.
fn may_hold_tables(found: &Metadata) -> bool
    ensures { IsTrue result ↔ MayHoldTables found.now }
{
    found.is_file() && found.len() >= LEAST_BYTES
}

// What was found, if it may be a database.
fn file_of(found: io::Result<Metadata>) -> Result<Metadata, Fault>
    ensures found { IsFoundAs found result }
    ensures cause { IfErr result IsFirstFault }
{
    match found {
        Ok(found) if may_hold_tables(&found) => Ok(found),
        Ok(_) => Err(Fault::Store),
        Err(error) => Err(system_fault(error)),
    }
}

// What is at the path, if it may be a database.
fn file_at<R: Files>(rt: &R, path: &str) -> Result<Metadata, Fault>
    ensures { IfErr result IsFirstFault }
{
    file_of(fs::metadata(rt, path))
}

// What the path names, behind each link.
fn named<R: Files>(rt: &R, path: &str) -> Option<Identity> {
    fs::metadata(rt, path).ok().map(|found| identity_of(&found))
}

// Whether the path names this file.
fn names<R: Files>(rt: &R, path: &str, file: Identity) -> bool {
    is_same(named(rt, path), file)
}

/// A file that was found at the path of a job. No call made it, so there is nothing of it to be removed.
#[derive(Clone, Copy)]
pub struct Found<'a> {
    path: &'a str,
    seen: Sighting,
}

impl<'a> Found<'a> {
    /// The file at the path, which may hold a database. Fault 21 where memory runs out, and fault 22 where nothing is there, or anything but
    /// a file of a page or more.
    pub fn at<R: Files>(rt: &R, path: &'a str) -> Result<Found<'a>, Fault>
        ensures { IfErr result IsFirstFault }
    {
        let found = file_at(rt, path)?;
        Ok(Found {
            path,
            seen: sighting_of(&found),
        })
    }

    /// Its path.
    pub fn path(&self) -> &'a str {
        self.path
    }

    /// The file as it is behind its opening, which gave a store with nothing in it or not. None where the opening had another file.
    pub fn opened<R: Files>(&self, rt: &R, is_blank: bool) -> Option<Opened<'a>> {
        let opened = sighting_of(&fs::metadata(rt, self.path).ok()?);
        if !is_opened_as(self.seen, opened, is_blank) {
            return None;
        }
        Some(Opened {
            path: self.path,
            file: opened.file,
        })
    }
}

/// A file that was found, and is open.
#[derive(Clone, Copy)]
pub struct Opened<'a> {
    path: &'a str,
    file: Identity,
}

impl Opened<'_> {
    /// Whether the path still names it.
    pub fn is_there<R: Files>(&self, rt: &R) -> bool {
        names(rt, self.path, self.file)
    }
}

// The path with no link in it, and that of the log, which lies beside the file wherever a link leads.
fn real_paths<R: Files + AllocGlobal>(rt: &R, path: &str) -> Result<(PathBuf, String), Fault>
    ensures { IfErr result IsFirstFault }
{
    let real = fs::canonicalize(rt, path).map_err(system_fault)?;
    let log = format!(in rt.alloc(); "{}{LOG_SUFFIX}", real.as_str()).map_err(|_| Fault::Memory)?;
    Ok((real, log))
}

// Takes away what stands at the path if it is this file, and no link to it. Whether nothing stands there behind it.
fn remove<R: Files>(rt: &R, path: &str, file: Identity) -> bool {
    match fs::symlink_metadata(rt, path) {
        Ok(found) => {
            is_same(Some(identity_of(&found)), file) && fs::remove_file(rt, path).is_ok()
        }
        Err(error) => error.kind() == ErrorKind::NotFound,
    }
}

// Takes away the log at this path. Whether nothing stands there behind it.
fn remove_log<R: Files>(rt: &R, log: &str) -> bool {
    match fs::symlink_metadata(rt, log) {
        Ok(found) => found.is_file() && fs::remove_file(rt, log).is_ok(),
        Err(error) => error.kind() == ErrorKind::NotFound,
    }
}

/// Takes away the file at the path and its log. Call it while a store with nothing in it is open there, which the opening made: the path had
/// named another file before, so fault 22 is told whether the two go or not. Fault 21 where memory runs out, and fault 22 where no database is
/// there: both stay then.
pub(crate) fn remove_blank<R: Files + AllocGlobal>(
    rt: &R,
    path: &str,
    _blank: Blank,
) -> Result<(), Fault>
    ensures { IfErr result IsFirstFault }
{
    let file = identity_of(&file_at(rt, path)?);
    let (real, log) = real_paths(rt, path)?;
    remove_log(rt, log.as_str());
    remove(rt, real.as_str(), file);
    Ok(())
}

/// The place of a new file, for one call of `init`. Until it is dropped no other call of `init` gets the file.
#[derive(Drop)]
pub struct NewFile<'a> {
    path: &'a str,
    log: String,
    file: File,
    is_made: bool,
}

// Whether it is a file with no bytes.
fn is_empty_file(found: &Metadata) -> bool
    ensures { IsTrue result ↔ IsEmptyFile found.now }
{
    found.is_file() && found.len() == 0
}

// Whether a file has no bytes and this one name, which the path is.
fn is_unused(found: &Metadata, links: u64, is_named: bool) -> bool
    ensures { IsTrue result ↔ (IsEmptyFile found.now × (links ≡ 1) × IsTrue is_named) }
{
    is_empty_file(found) && links == 1 && is_named
}

// Whether there is no log, or one with nothing in it.
fn is_absent_or_empty(found: io::Result<Metadata>) -> io::Result<bool>
    ensures { IsAbsentOrEmpty found result }
{
    match found {
        Ok(found) => Ok(found.is_file() && found.len() <= EMPTY_LOG_BYTES),
        Err(error) if error.kind() == ErrorKind::NotFound => Ok(true),
        Err(error) => Err(error),
    }
}

// Whether a plain file is there.
fn is_plain_file(found: io::Result<Metadata>) -> io::Result<bool>
    ensures { IsPlainFile found result }
{
    match found {
        Ok(found) => Ok(found.is_file()),
        Err(error) if error.kind() == ErrorKind::NotFound => Ok(false),
        Err(error) => Err(error),
    }
}

// Whether the path is that of another file's log.
fn is_log_of_another<R: Files>(rt: &R, path: &str) -> io::Result<bool> {
    match path.strip_suffix(LOG_SUFFIX) {
        Some(other) => is_plain_file(fs::symlink_metadata(rt, other)),
        None => Ok(false),
    }
}

// The fault that is told behind a place that was left as it was found, or not.
fn fault_behind(is_left: bool, cause: Fault) -> Fault
    ensures value { result ≡ fault_behind is_left cause }
    ensures first { IsFirstFault cause → IsFirstFault result }
    ensures store { cause ≡ fault.Store → result ≡ fault.Store }
{
    if is_left { cause } else { Fault::Store }
}

// The empty file that is there.
fn open_empty<R: Files<File = File>>(rt: &R, path: &str) -> io::Result<File> {
    if !is_empty_file(&fs::metadata(rt, path)?) {
        return Err(ErrorKind::AlreadyExists.into());
    }
    OpenOptions::new().read(true).write(true).open(rt, path)
}

// The file that was made at the path, or the empty one that was there, and whether it was made.
fn make_or_open<R: Files<File = File>>(rt: &R, path: &str) -> io::Result<(File, bool)> {
    match OpenOptions::new()
        .read(true)
        .write(true)
        .create_new(true)
        .mode(0o644)
        .open(rt, path)
    {
        Ok(file) => Ok((file, true)),
        Err(error) if error.kind() == ErrorKind::AlreadyExists => {
            Ok((open_empty(rt, path)?, false))
        }
        Err(error) => Err(error),
    }
}

// Locks the file among calls of `init`.
fn lock_init(file: &File) -> io::Result<()> {
    if os::try_lock_range(file.as_raw_fd(), RangeLock::Exclusive, INIT_BYTE, 1) == 0 {
        return Ok(());
    }
    Err(io::Error::from_raw_os_error(os::errno()))
}

impl<'a> NewFile<'a> {
    /// Takes the place at this path: makes a file there, or takes an empty one. Fault 21 where memory runs out. Fault 22 where anything
    /// else is there, where a log with news lies beside it, where the log of another file would be there, where another call of `init` is at
    /// it, or where no file can be made. What was there stays as it is, and what was made is taken away; fault 22 also where that fails.
    pub fn claim<R: Files<File = File> + AllocGlobal>(
        rt: &R,
        path: &'a str,
    ) -> Result<NewFile<'a>, Fault>
        ensures { IfErr result IsFirstFault }
    {
        let (file, is_made) = make_or_open(rt, path).map_err(system_fault)?;
        let mut new_file = NewFile {
            path,
            log: String::new(rt.alloc()),
            file,
            is_made,
        };
        match new_file.settle(rt) {
            Ok(()) => Ok(new_file),
            Err(fault) => Err(fault_behind(new_file.give_up(rt), fault)),
        }
    }

    // Locks the file, and sees that it is empty, that the path alone names it and is not that of another file's log, and that no log has news of
    // another.
    fn settle<R: Files<File = File> + AllocGlobal>(&mut self, rt: &R) -> Result<(), Fault>
        ensures { IfErr result IsFirstFault }
    {
        self.keep_off_streams().map_err(system_fault)?;
        self.lock().map_err(system_fault)?;
        let (real, log) = real_paths(rt, self.path)?;
        self.log = log;
        let is_anothers = is_log_of_another(rt, real.as_str()).map_err(system_fault)?;
        if is_anothers
            || !self.has_no_log_entries(rt).map_err(system_fault)?
            || !self.is_empty(rt).map_err(system_fault)?
        {
            return Err(Fault::Store);
        }
        Ok(())
    }

    // Moves the file away from the descriptor of a standard stream that was closed, since what is printed would land in it.
    fn keep_off_streams(&mut self) -> io::Result<()> {
        if is_stream(self.file.as_raw_fd()) {
            let moved = self.file.try_clone()?;
            self.file = moved;
        }
        Ok(())
    }

    // Locks the file among calls of `init`. Where another call has it, the file is that call's, whoever made it.
    fn lock(&mut self) -> io::Result<()>
        ensures locked { OnOk result (self.new ≡ self.old) }
        ensures held { IfErr result (λ e. error_kind e ≡ WouldBlock → self.new.is_made ≡ false) }
        ensures failed { IfErr result (λ e. error_kind e ≢ WouldBlock → self.new ≡ self.old) }
    {
        let locked = lock_init(&self.file);
        if matches!(&locked, Err(error) if error.kind() == ErrorKind::WouldBlock) {
            self.is_made = false;
        }
        locked
    }

    // Whether there is no log, or one with nothing in it.
    fn has_no_log_entries<R: Files>(&self, rt: &R) -> io::Result<bool> {
        is_absent_or_empty(fs::symlink_metadata(rt, self.log.as_str()))
    }

    // Whether the path names the file, no other path does, and it has no bytes.
    fn is_empty<R: Files>(&self, rt: &R) -> io::Result<bool> {
        let found = self.file.metadata()?;
        let is_named = names(rt, self.path, identity_of(&found));
        Ok(is_unused(&found, found.nlink(), is_named))
    }

    // Takes away the file that this call made, if it is still empty. Whether nothing that was made is left.
    fn give_up<R: Files>(&self, rt: &R) -> bool {
        if !self.is_made {
            return true;
        }
        match self.file.metadata() {
            Ok(found) => is_empty_file(&found) && remove(rt, self.path, identity_of(&found)),
            Err(_) => false,
        }
    }

    /// Its path.
    pub fn path(&self) -> &'a str {
        self.path
    }

    /// Whether the path still names the file.
    pub fn is_there<R: Files>(&self, rt: &R) -> bool {
        match self.file.metadata() {
            Ok(found) => names(rt, self.path, identity_of(&found)),
            Err(_) => false,
        }
    }

    /// Leaves the place as it was found, behind tables that could not be made there: nothing where this call made the file, else an empty
    /// file; and no log, also where one without news lay there. The log goes first, so that none is left without its file. Where the path
    /// names another file, all stays. Whether the place is left so.
    pub fn clear<R: Files>(&self, rt: &R) -> bool {
        let Ok(found) = self.file.metadata() else {
            return false;
        };
        let file = identity_of(&found);
        if !names(rt, self.path, file) {
            return false;
        }
        let is_log_gone = remove_log(rt, self.log.as_str());
        let is_left = if self.is_made {
            remove(rt, self.path, file)
        } else {
            self.file.set_len(0).is_ok()
        };
        is_log_gone && is_left
    }

    /// Leaves the place so behind this fault, and gives the one that is told: fault 22 where the place is not as it was found.
    pub(crate) fn leave<R: Files>(&self, rt: &R, cause: Fault) -> Fault
        ensures value { (is_left : Bool) × (result ≡ fault_behind is_left cause) }
        ensures first { IsFirstFault cause → IsFirstFault result }
        ensures store { cause ≡ fault.Store → result ≡ fault.Store }
    {
        fault_behind(self.clear(rt), cause)
    }
}
