//! What answers messages and questions.

ghost use Rattle.std.specs.Prelude.{◌≡◌, IfOk};
ghost use Rattle.dm_desk.specs.Desks.{Posts, TellsTime, TellsCost, TellsLength, IsCopied, IsAdoptable, AdoptsPlan, CarriesPlan};
ghost use Rattle.dm_tree.specs.Plans.{chosen};

use dm_base::{Cost, EventId, Secs};
use dm_rows::{At, Decision, Entry, Refusal, Snapshot};
use dm_tree::AdoptRefusal;
use std::alloc::AllocError;

/// What enters messages into a history and answers questions about it. Each call may first come to see more of the history,
/// which others have entered; its answer is then that of one dispatcher's table at the history that is seen.
pub trait Desk {
    ghost use Rattle.dm_desk.specs.Desks.{DeskValue};

    /// The network, start rows, penalty and number of plans, the history that was seen, and which of its entries were entered here.
    ghost value: { Self → DeskValue };

    /// How many plans a feed may have.
    fn plans(&self) -> u32
        ensures { result ≡ (value self.now).setting.plans };

    /// Enters a message, and answers its number. A refusal is the first that applies at the history that is seen, or want of
    /// memory, and nothing is entered then.
    fn post(&mut self, entry: Entry) -> Result<u32, At<Refusal>>
        ensures { Posts (value self.old) (value self.new) entry result };

    /// The time of an event in seconds, and at how many entries, or that there is no such event.
    fn time(&mut self, event: EventId) -> Result<(Secs, u32), At<Refusal>>
        ensures { TellsTime (value self.old) (value self.new) event result };

    /// The cost in thousandths of passenger seconds, and at how many entries.
    fn cost(&mut self) -> (Cost, u32)
        ensures { TellsCost (value self.old) (value self.new) result };

    /// How many entries there are.
    fn length(&mut self) -> u32
        ensures { TellsLength (value self.old) (value self.new) result };

    /// How many entries there are, and rows equal to those after them. `Err` is want of memory alone.
    fn snapshot(&mut self) -> Result<Snapshot, AllocError>
        ensures { IfOk result (IsCopied (value self.old) (value self.new)) };

    /// Adopts the choices of a plan of the rows after so many entries: free ones, in order, with which these rows have no
    /// cycle. It answers the number of the entry, which is the next after those. [`AdoptRefusal::Old`] comes exactly where
    /// there are more entries by now, and [`AdoptRefusal::Full`] exactly where there are as many and there is no room for one,
    /// but for want of memory.
    fn adopt(
        &mut self,
        entry: u32,
        choices: &[Decision],
        feed: u32,
        line: u32,
    ) -> Result<u32, AdoptRefusal>
        requires { IsAdoptable (value self.old) (chosen entry choices.now) }
        ensures { AdoptsPlan (value self.old) (value self.new) (chosen entry choices.now) feed line result };

    /// Enters those of the choices that are free after the history that is seen, as one adopted list, and answers its number.
    /// The list may be empty. It is refused for a cycle, for a full history, or for want of memory, and nothing is entered then.
    fn carry(&mut self, choices: &[Decision], feed: u32, line: u32) -> Result<u32, At<Refusal>>
        ensures { CarriesPlan (value self.old) (value self.new) choices.now feed line result };
}
