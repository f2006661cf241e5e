//! The start of a life over what an earlier one had not synced yet.
ghost use Rattle.std.specs.Prelude.{◌≤◌, ℕ, List, OnOk};
ghost use Rattle.dm_cert.specs.Answers.{Setting};
ghost use Rattle.dm_store.specs.Calls.{HasCause, LeavesOnly};
ghost use Rattle.dm_book.specs.Books.{Book, IsSafe};
ghost use Rattle.dm_serve.specs.Lives.{IsTakenUp};
ghost use Rattle.dm_lives.specs.Starts.{IsReadSafe};

use dm_store::{Store, StoreError};

/// Syncs a store before a life begins over it, as is to be done where the process of an earlier life was killed: what it wrote is read
/// then, and a loss of power might still take it back.
pub fn sync_first<S: Store>(store: &mut S) -> Result<(), StoreError>
    ensures taken { (s : Setting) (feeds : ℕ) (contents : List (List ℕ)) (low book : Book)
        → IsReadSafe S.Store s feeds store.old contents low book
        → OnOk result (IsTakenUp S.Store s feeds store.new contents book) }
    ensures any_moment { (s : Setting) (feeds : ℕ) (contents : List (List ℕ)) (low book : Book)
        → IsReadSafe S.Store s feeds store.old contents low book
        → LeavesOnly S.moment S.left_since store.old store.new (IsSafe s low book) }
    ensures cause { HasCause (S.faults store.old) (S.faults store.new) result }
{
    store.sync()
}
