//! What shows times and cancelled events to passengers.
ghost use Rattle.std.specs.Prelude.{◌≡◌, ℕ, Bool, Option, All, IsOk, OnOk};
ghost use Rattle.dm_outside.specs.Faults.{Counts};
ghost use Rattle.dm_outside.specs.Board.{Sets, SetsValues, KeepsValues, IsShown};

use crate::Failed;

/// A board that shows the times of the events at one stop, and which of them are cancelled.
pub trait Board: Drop {
    /// The stop whose events it shows. It never changes.
    ghost place: { Self → ℕ };

    /// The time in seconds that it shows of each event id, where the board tells them.
    ghost times: { Self → Option (ℕ → Option ℕ) };

    /// Of each event id whether it shows it as cancelled, or none where it was told nothing of that; where the board tells them.
    ghost flags: { Self → Option (ℕ → Option Bool) };

    /// How many of its shows and cancels have failed: it never falls.
    ghost faults: { Self → ℕ };

    /// What it tells of an event id: where this holds of each id of a show or a cancel, that does not fail.
    ghost is_sound: { Self → ℕ → Type 0 };

    /// The id of the stop whose events it shows.
    fn stop(&self) -> u32
        ensures { result ≡ place self.now };

    /// Sets each listed pair of event id and time in seconds, in turn, and keeps all else. What
    /// stands on the board after a failed show is not said.
    fn show(&mut self, changes: &[(u32, u64)]) -> Result<(), Failed>
        ensures place { place self.new ≡ place self.old }
        ensures sets { OnOk result (Sets (times self.old) (times self.new) changes.now) }
        ensures same_flags { OnOk result (KeepsValues (flags self.old) (flags self.new)) }
        ensures cause { Counts (faults self.old) (faults self.new) result }
        ensures sound { All (λ change. is_sound self.old change.0) changes.now → IsOk result }
        ensures stays_sound { All (λ change. is_sound self.old change.0) changes.now
            → (event : ℕ) → is_sound self.old event → is_sound self.new event };

    /// Sets of each listed event id whether it is cancelled, in turn, and keeps all else. What stands on the board after a failed
    /// cancel is not said.
    fn cancel(&mut self, changes: &[(u32, bool)]) -> Result<(), Failed>
        ensures place { place self.new ≡ place self.old }
        ensures sets { OnOk result (SetsValues (flags self.old) (flags self.new) changes.now) }
        ensures same_times { OnOk result (KeepsValues (times self.old) (times self.new)) }
        ensures cause { Counts (faults self.old) (faults self.new) result }
        ensures sound { All (λ change. is_sound self.old change.0) changes.now → IsOk result }
        ensures stays_sound { All (λ change. is_sound self.old change.0) changes.now
            → (event : ℕ) → is_sound self.old event → is_sound self.new event };

    /// Whether it shows an event id as cancelled, or `None` where it was told nothing of that.
    fn cancelled(&self, event: u32) -> Option<bool>
        ensures { IsShown (flags self.now) event result };

    /// The time in seconds that it shows of an event id.
    fn shown(&self, event: u32) -> Option<u64>
        ensures { IsShown (times self.now) event result };
}
