//! A disk with a clock, and files that are shown to people.
ghost use Rattle.std.specs.Prelude.{◌≡◌, ◌<◌, ◌≤◌, ℕ, List, [], length, take, IfOk, OnOk, slice_set, slice_index_or};
ghost use Rattle.dm_store.specs.Calls.{AreFronts, Image, Torn, Cut, OnJournal, Follows, AddsNone, LeavesJournal, Goes, GoesShowing, HasCause};
ghost use Rattle.dm_store.specs.Calls.{written, shown_behind, GoesOnAs, ShowsFront, ShowsText};

use crate::StoreError;
use std::alloc::Global;

/// A journal on a disk, and a reply file for each feed.
pub trait Store {
    /// The store tells what the other members say. Where it does not, the clauses `cause` alone hold of it: so it is with a real
    /// one.
    ghost tells: { Self → Type 0 };

    /// The bytes of the journal that a read returns.
    ghost seen: { Self → List ℕ };

    /// Of each reply file, all that it has shown.
    ghost shown: { Self → List (List ℕ) };

    /// What a crash at this moment may leave.
    ghost may_leave: { Self → Image → Type 0 };

    /// The moment, as a number that never falls.
    ghost moment: { Self → ℕ };

    /// What a crash at some moment from that one on might have left, during a call or between two.
    ghost left_since: { Self → ℕ → Image → Type 0 };

    /// How often a call has failed, until the count stands at its last value.
    ghost faults: { Self → ℕ };

    /// All the bytes of the journal.
    fn read(&mut self, alloc: Global) -> Result<Vec<u8>, StoreError>
        ensures bytes { tells self.old → IfOk result (λ bytes. bytes.items ≡ seen self.old) }
        ensures seen { tells self.old → seen self.new ≡ seen self.old }
        ensures crash { tells self.old → AddsNone (may_leave self.old) (may_leave self.new) }
        ensures goes { tells self.old → Goes shown moment left_since may_leave self.old self.new }
        ensures told { tells self.old → tells self.new }
        ensures cause { HasCause (faults self.old) (faults self.new) result };

    /// Writes over what is there, and past the end. Until a sync, a crash may leave any bytes in the range.
    fn write_at(&mut self, at: usize, bytes: &[u8]) -> Result<(), StoreError>
        ensures written { tells self.old → at ≤ length (seen self.old)
            → OnOk result (seen self.new ≡ written (seen self.old) at bytes.now) }
        ensures crash { tells self.old → at ≤ length (seen self.old)
            → Follows (OnJournal (Torn at (length bytes.now))) (may_leave self.old) (may_leave self.new) }
        ensures goes { tells self.old → at ≤ length (seen self.old) → Goes shown moment left_since may_leave self.old self.new }
        ensures told { tells self.old → tells self.new }
        ensures cause { HasCause (faults self.old) (faults self.new) result };

    /// Cuts the journal to a length.
    fn cut(&mut self, len: usize) -> Result<(), StoreError>
        ensures cut { tells self.old → len ≤ length (seen self.old) → OnOk result (seen self.new ≡ take len (seen self.old)) }
        ensures crash { tells self.old → len ≤ length (seen self.old)
            → Follows (OnJournal (Cut len)) (may_leave self.old) (may_leave self.new) }
        ensures goes { tells self.old → len ≤ length (seen self.old)
            → Goes shown moment left_since may_leave self.old self.new }
        ensures told { tells self.old → tells self.new }
        ensures cause { HasCause (faults self.old) (faults self.new) result };

    /// After it a crash leaves of the journal what a read returns.
    fn sync(&mut self) -> Result<(), StoreError>
        ensures durable { tells self.old → OnOk result (LeavesJournal (seen self.old) (may_leave self.new)) }
        ensures seen { tells self.old → seen self.new ≡ seen self.old }
        ensures crash { tells self.old → AddsNone (may_leave self.old) (may_leave self.new) }
        ensures goes { tells self.old → Goes shown moment left_since may_leave self.old self.new }
        ensures told { tells self.old → tells self.new }
        ensures cause { HasCause (faults self.old) (faults self.new) result };

    /// All that the reply file of the feed has shown; feeds count from 0.
    fn read_shown(&mut self, alloc: Global, feed: usize) -> Result<Vec<u8>, StoreError>
        ensures bytes { tells self.old → feed < length (shown self.old)
            → IfOk result (λ bytes. bytes.items ≡ slice_index_or (shown self.old) feed []) }
        ensures seen { tells self.old → seen self.new ≡ seen self.old }
        ensures crash { tells self.old → AddsNone (may_leave self.old) (may_leave self.new) }
        ensures goes { tells self.old → Goes shown moment left_since may_leave self.old self.new }
        ensures told { tells self.old → tells self.new }
        ensures cause { HasCause (faults self.old) (faults self.new) result };

    /// Shows the bytes behind what the reply file of the feed has shown; feeds count from 0. At `Err` a front of them may
    /// have been shown.
    fn show(&mut self, feed: usize, bytes: &[u8]) -> Result<(), StoreError>
        ensures shown { tells self.old → feed < length (shown self.old)
            → OnOk result (shown self.new ≡ shown_behind (shown self.old) feed bytes.now) }
        ensures front { tells self.old → feed < length (shown self.old) → ShowsFront feed bytes.now (shown self.old) (shown self.new) }
        ensures goes { tells self.old → feed < length (shown self.old)
            → GoesShowing seen moment left_since may_leave (ShowsFront feed bytes.now) self.old self.new }
        ensures told { tells self.old → tells self.new }
        ensures cause { HasCause (faults self.old) (faults self.new) result };

    /// Puts the reply file of the feed anew, at once and whole, with a text that goes on from what it showed: it then shows the
    /// text. At `Err` it shows what it did or the text. Of any other text nothing is promised: what was shown is never taken back.
    fn renew(&mut self, feed: usize, text: &[u8]) -> Result<(), StoreError>
        ensures shown { tells self.old → feed < length (shown self.old) → GoesOnAs feed (shown self.old) text.now
            → OnOk result (shown self.new ≡ slice_set (shown self.old) feed text.now) }
        ensures either { tells self.old → feed < length (shown self.old) → GoesOnAs feed (shown self.old) text.now
            → ShowsText feed text.now (shown self.old) (shown self.new) }
        ensures goes { tells self.old → feed < length (shown self.old) → GoesOnAs feed (shown self.old) text.now
            → GoesShowing seen moment left_since may_leave (ShowsText feed text.now) self.old self.new }
        ensures told { tells self.old → GoesOnAs feed (shown self.old) text.now → tells self.new }
        ensures cause { HasCause (faults self.old) (faults self.new) result };

    /// What a crash leaves has what is shown now.
    ghost shows_now: { (store : Self) (image : Image) → tells store → may_leave store image → image.shown ≡ shown store };

    /// This moment is one of those since an earlier one.
    ghost counts_now: { (store : Self) (t : ℕ) (image : Image) → tells store → t ≤ moment store
        → may_leave store image → left_since store t image };

    /// Since this moment there is no other.
    ghost only_now: { (store : Self) (image : Image) → tells store → left_since store (moment store) image → may_leave store image };

    /// What was shown is never taken back: whatever a crash since any moment might have left shows fronts of what is shown now.
    ghost shows_on: { (store : Self) (t : ℕ) (image : Image) → tells store → left_since store t image
        → AreFronts image.shown (shown store) };

    /// A crash now may leave what a read returns, with what is shown: some image is always left, and the other laws speak of it.
    ghost leaves_now: { (store : Self) → tells store → may_leave store (record { journal = seen store; shown = shown store }) };
}
