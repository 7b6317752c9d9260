//! Why a request got no answer.

ghost use Rattle.std.specs.Prelude.{◌≡◌, false};
ghost use Rattle.dh_http.specs.Served.{unread_fault};
ghost use Rattle.dh_http.specs.declared.fault.NetFault.TheVariants as net;

use dh_reading::{ReaderFailed, Unread};
use dh_types::Output;
use std::alloc::AllocError;

/// Why a request got no answer.
#[derive(Clone, Copy, Debug)]
pub enum NetFault {
    /// No byte came; nothing was done.
    Closed,
    /// The reader failed; nothing was done. Only a read that failed makes what this holds.
    Input(ReaderFailed),
    /// The writer failed, and has a beginning of the answer; what was asked for stands.
    Output(Output),
    /// Memory for the request or its answer ran out, and nothing was written. The command was carried out where `acted`, and
    /// else nothing was done.
    Memory { acted: bool },
}

impl From<Unread> for NetFault {
    ghost from_gives = { λ unread fault. fault ≡ unread_fault unread };

    fn from(unread: Unread) -> NetFault {
        match unread {
            Unread::Input(failed) => NetFault::Input(failed),
            Unread::Memory => NetFault::Memory { acted: false },
        }
    }
}

impl From<Output> for NetFault {
    ghost from_gives = { λ output e. e ≡ net.Output output };

    fn from(output: Output) -> NetFault {
        NetFault::Output(output)
    }
}

/// Before a request is read nothing is done.
impl From<AllocError> for NetFault {
    ghost from_gives = { λ _ e. e ≡ net.Memory false };

    fn from(_: AllocError) -> NetFault {
        NetFault::Memory { acted: false }
    }
}
