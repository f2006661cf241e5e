//! What the calls of a store and of its journal answer in place of a result.
ghost use Rattle.std.specs.Prelude.{◌≡◌};
ghost use Rattle.dm_store.specs.declared.faults.StoreError.TheVariants.{OutOfMemory};

use std::alloc::{AllocError, AllocFailed};

/// Why a call of a store or of its journal failed.
#[derive(Clone, Copy, Debug, PartialEq, Eq)]
pub enum StoreError {
    /// There was no memory.
    OutOfMemory,
    /// A call of the system failed. The store has counted the fault.
    Failed,
    /// The journal that was to be recovered could not be read: a call of the system failed. The store has counted the fault.
    /// Nothing was changed.
    Unread,
    /// With the block the journal would be longer than `LARGEST_JOURNAL` bytes. Nothing was written.
    Full,
    /// The file is no journal: no block stands in it, and no crash leaves such bytes. Nothing was changed.
    NoJournal,
    /// The first block does not begin with the line `dm-store 1`. Nothing was changed.
    OtherVersion,
    /// Behind the blocks an open gate stands before less than a block, as no crash leaves it: the length is no number, or
    /// more than there is. Nothing was changed.
    Broken,
}

impl From<AllocError> for StoreError {
    ghost from_gives = { λ _ e. e ≡ OutOfMemory };

    fn from(_: AllocError) -> StoreError {
        StoreError::OutOfMemory
    }
}

impl<T: Drop> From<AllocFailed<T>> for StoreError {
    ghost from_gives = { λ _ e. e ≡ OutOfMemory };

    fn from(_: AllocFailed<T>) -> StoreError {
        StoreError::OutOfMemory
    }
}
