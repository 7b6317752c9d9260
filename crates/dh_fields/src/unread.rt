//! Why a line was not read.

ghost use Rattle.std.specs.Prelude.{◌≡◌};
ghost use Rattle.dh_fields.specs.declared.unread.Unread.TheVariants.{Memory};

use std::alloc::AllocError;

/// Why a field or a line was not read.
#[derive(Clone, Copy)]
pub(crate) enum Unread {
    /// Memory ran out.
    Memory,
    /// The first field that is wrong, missing or too many, numbered from 1.
    Field(u8),
}

impl From<AllocError> for Unread {
    ghost from_gives = { λ _ e. e ≡ Memory };

    fn from(_: AllocError) -> Unread {
        Unread::Memory
    }
}
