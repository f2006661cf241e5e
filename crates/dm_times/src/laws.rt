//! What holds of all rows and their timetables. A law has no code: it is proved as the contract of an empty function.

ghost use Rattle.dm_times.specs.Laws.{MetExactlyWithoutCycle, StartHasNoCycle, LeastTimesAreEarly};
ghost use Rattle.dm_rows.specs.Harmless.{NeverMakeCycles};

/// Rows can be met exactly where they have no cycle: any rows of a network, and so those that messages and decisions reach
/// from its start rows; and what is relaxed by any path from them.
pub fn met_exactly_without_cycle()
    ensures { MetExactlyWithoutCycle }
{}

/// A delay, a passed event, a dropped change, a clock, a cancelled event and a lock never make a cycle.
pub fn harmless_messages_make_no_cycle()
    ensures { NeverMakeCycles }
{}

/// The start rows of a network have no cycle, whichever events are cancelled.
pub fn start_has_no_cycle()
    ensures { StartHasNoCycle }
{}

/// In the least timetable of rows within the limits, every time is below 2^38 seconds.
pub fn least_times_are_early()
    ensures { LeastTimesAreEarly }
{}
