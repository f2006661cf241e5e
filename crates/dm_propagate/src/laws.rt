//! What holds of every engine. A law has no code: it is proved as the contract of an empty function.

ghost use Rattle.std.specs.Prelude.{ℕ, ◌+◌, ◌≤◌, List};
ghost use Rattle.dm_network.specs.Net.{Net, EndsAreKnown};
ghost use Rattle.dm_rows.specs.Active.{HasNoCycle};
ghost use Rattle.dm_rows.specs.Timetable.{IsLeast};
ghost use Rattle.dm_rows.specs.Rows.{RowsValue};
ghost use Rattle.dm_rows.specs.declared.messages.Change.TheVariants.{EventDelay};
ghost use Rattle.dm_propagate.specs.Engine.{EngineValue, IsEngineOf, times_of};
ghost use Rattle.dm_propagate.specs.Reading.{ReadsFew};

/// The times of an engine are the least timetable of its rows.
pub fn times_are_least()
    ensures { (net : Net) (engine : EngineValue) → EndsAreKnown net → IsEngineOf net engine → IsLeast net engine.rows (times_of engine) }
{}

/// The rows of an engine have no cycle.
pub fn rows_have_no_cycle()
    ensures { (net : Net) (engine : EngineValue) → IsEngineOf net engine → HasNoCycle net engine.rows }
{}

/// Where no time changes, a delay of an event makes at most two rows of the network be read.
pub fn delay_that_moves_nothing_reads_two_rows()
    ensures { (net : Net) (rows : RowsValue) (i d first last : ℕ) (times : List ℕ) →
        ReadsFew net rows (EventDelay i d) times times first last → last ≤ first + 2 }
{}
