//! Why a journal gives no run.
ghost use Rattle.std.specs.Prelude.{◌≡◌};
ghost use Rattle.dm_restore.specs.declared.stops.RestoreStop.TheVariants.{OutOfMemory};

use dm_check::BadKind;
use std::alloc::{AllocError, AllocFailed};

/// Why the file of a journal gives no run.
#[derive(Clone, Copy)]
pub enum RestoreStop {
    /// There was no memory.
    OutOfMemory,

    /// The file has more bytes than a journal may have, or the text of its run more than are judged.
    Full,

    /// The first block is of another penalty, another number of plans or another number of feeds.
    Head,

    /// The block of this number, from 1, is misshapen.
    Form(usize),

    /// The text of the run breaks a rule: the line, and what is wrong there.
    Bad(u32, BadKind),
}

impl From<AllocError> for RestoreStop {
    ghost from_gives = { λ _ stop. stop ≡ OutOfMemory };

    fn from(_: AllocError) -> RestoreStop {
        RestoreStop::OutOfMemory
    }
}

impl<T: Drop> From<AllocFailed<T>> for RestoreStop {
    ghost from_gives = { λ _ stop. stop ≡ OutOfMemory };

    fn from(_: AllocFailed<T>) -> RestoreStop {
        RestoreStop::OutOfMemory
    }
}
