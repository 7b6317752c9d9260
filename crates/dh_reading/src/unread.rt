//! Why nothing was read.

ghost use Rattle.std.specs.Prelude.{◌≡◌};
ghost use Rattle.dh_reading.specs.declared.unread.Unread.TheVariants as unread;

use crate::again::ReaderFailed;
use std::alloc::AllocError;

/// Why nothing was read.
#[derive(Clone, Copy, Debug)]
pub enum Unread {
    /// The reader failed. Only a read that failed makes what this holds.
    Input(ReaderFailed),
    /// Memory ran out.
    Memory,
}

impl From<AllocError> for Unread {
    ghost from_gives = { λ _ e. e ≡ unread.Memory };

    fn from(_: AllocError) -> Unread {
        Unread::Memory
    }
}

impl From<ReaderFailed> for Unread {
    ghost from_gives = { λ failed e. e ≡ unread.Input failed };

    fn from(failed: ReaderFailed) -> Unread {
        Unread::Input(failed)
    }
}
