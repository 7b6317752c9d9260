//! A disk of a bounded length: it refuses what would make it longer, as a full one does.

ghost use Rattle.std.specs.Prelude.{◌≡◌, ◌+◌, is_err};
ghost use Rattle.sqlite_disk.specs.Disk.{CountsFault};
ghost use Rattle.sqlite_disk.specs.Refusal.{finds_no_room};
ghost use Rattle.sqlite_disk.specs.Tally.{both_counts};

use sqlite_disk::{Crash, Disk, Tally};
use std::io;

/// Passes each call on but a write or a change of length that ends past the bound.
#[derive(Drop)]
pub struct Bounded<D: Disk> {
    inner: D,
    bound: usize,
    refused: u64,
}

impl<D: Disk> Bounded<D> {
    pub fn new(inner: D, bound: usize) -> Bounded<D> {
        Bounded {
            inner,
            bound,
            refused: 0,
        }
    }

    pub fn inner(&self) -> &D {
        &self.inner
    }

    /// Whether it has refused a call.
    pub fn has_refused(&self) -> bool {
        self.refused > 0
    }
}

// Refuses what ends past the bound.
fn admit(end: usize, bound: usize, refused: &mut u64) -> io::Result<()>
    ensures faults { CountsFault result refused.old refused.new }
    ensures kind { finds_no_room result ≡ is_err result }
{
    if end > bound {
        *refused = refused.saturating_add(1);
        return Err(io::ErrorKind::StorageFull.into());
    }
    Ok(())
}

impl<D: Disk> Disk for Bounded<D> {
    ghost seen = { λ b. D.Disk.seen b.inner };

    ghost may_leave = { λ b. D.Disk.may_leave b.inner };

    ghost is_usable = { λ b. D.Disk.is_usable b.inner };

    ghost faults = { λ b. D.Disk.faults b.inner + b.refused };

    ghost tally_of = { λ b. both_counts (D.Disk.tally_of b.inner) (record { caught = 0; refused = b.refused }) };

    ghost is_rotten = { λ b. D.Disk.is_rotten b.inner };

    ghost key_of = { λ b. D.Disk.key_of b.inner };

    ghost is_clean = { λ b. D.Disk.is_clean b.inner };

    ghost is_fair = { λ b. D.Disk.is_fair b.inner };

    ghost fair_if_clean = { λ b. D.Disk.fair_if_clean b.inner };

    ghost seen_may_stay = { λ b. D.Disk.seen_may_stay b.inner };

    ghost is_mixing = { λ b. D.Disk.is_mixing b.inner };

    fn mixes(&self) -> bool {
        self.inner.mixes()
    }

    fn key(&self) -> u64 {
        self.inner.key()
    }

    fn tally(&self) -> Tally {
        self.inner.tally().plus(Tally {
            caught: 0,
            refused: self.refused,
        })
    }

    fn may_be_used(&self) -> bool {
        self.inner.may_be_used()
    }

    fn len(&mut self) -> io::Result<usize> {
        self.inner.len()
    }

    fn read_at(&mut self, at: usize, buf: &mut [u8]) -> io::Result<()> {
        self.inner.read_at(at, buf)
    }

    fn read_checked(&mut self, key: u64, want: u64, at: usize, buf: &mut [u8]) -> io::Result<()> {
        self.inner.read_checked(key, want, at, buf)
    }

    fn write_at(&mut self, at: usize, bytes: &[u8]) -> io::Result<()> {
        admit(
            at.saturating_add(bytes.len()),
            self.bound,
            &mut self.refused,
        )?;
        self.inner.write_at(at, bytes)
    }

    fn set_len(&mut self, len: usize) -> io::Result<()> {
        admit(len, self.bound, &mut self.refused)?;
        self.inner.set_len(len)
    }

    fn sync(&mut self) -> io::Result<()> {
        self.inner.sync()
    }
}

/// The machine comes back with room on the disk.
impl<D: Crash> Crash for Bounded<D> {
    fn crash(&mut self) {
        self.inner.crash();
        self.bound = usize::MAX;
    }
}
