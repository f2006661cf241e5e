//! What holds of all rows. A law has no code: it is proved as the contract of an empty function.

ghost use Rattle.dm_rows.specs.Worked.{CostsOfChoices, CostsOfMisses, LeastTimes, CostsOfClocks, FreeAndViolated, RefusedMessages, RefusedCycle, TouchedEvents, LeastTimesOfCancelled, CostsOfCancelled, PassedIsNotCancelled, FreeOfCancelledAndLocked, RefusedForCancelled, RefusedForLocks, RestoredCycle};
ghost use Rattle.dm_rows.specs.Laws.{MeetsHoldingAsGraph, LeastHoldingAsGraph, MeetsAsGraph, LeastAsGraph, BindsAtStartOrTakesTime, MetExactlyWithoutCycle, LeastExistsWithoutCycle, ActiveEnterNoPassed, RelaxedEnterNoPassed, AdoptSetsDecisions, StartActivityAgrees, ActiveAtStartBinds, FreeWhereNothingRefuses};

/// A timetable meets the rows holding some activities exactly where it meets their graph and each passed event has its time.
pub fn meets_holding_as_graph()
    ensures { MeetsHoldingAsGraph }
{}

/// A timetable is least for the rows holding some activities, of which none enters a passed event, exactly where it is
/// least for their graph.
pub fn least_holding_as_graph()
    ensures { LeastHoldingAsGraph }
{}

/// A timetable meets the rows exactly where it meets their graph and each passed event has its time.
pub fn meets_as_graph()
    ensures { MeetsAsGraph }
{}

/// A timetable is least for the rows exactly where it is least for their graph.
pub fn least_as_graph()
    ensures { LeastAsGraph }
{}

/// Each activity of a network binds at the start or takes at least a second.
pub fn binds_at_start_or_takes_time()
    ensures { BindsAtStartOrTakesTime }
{}

/// Held activities of a network, of which none enters a passed event, can be met exactly where they have no cycle.
pub fn held_is_met_exactly_without_cycle()
    ensures { MetExactlyWithoutCycle }
{}

/// Where held activities have no cycle and none enters a passed event, a timetable is least.
pub fn least_exists_without_cycle()
    ensures { LeastExistsWithoutCycle }
{}

/// No active activity enters a passed event.
pub fn active_enter_no_passed()
    ensures { ActiveEnterNoPassed }
{}

/// What binds in a relaxed problem enters no passed event.
pub fn relaxed_enter_no_passed()
    ensures { RelaxedEnterNoPassed }
{}

/// An adopted list whose decisions all name something sets each of them.
pub fn adopt_sets_decisions()
    ensures { AdoptSetsDecisions }
{}

/// What the four choices cost where two trains meet and the first is a minute late.
pub fn costs_of_choices()
    ensures { CostsOfChoices }
{}

/// What a change costs that its passed head has missed.
pub fn costs_of_misses()
    ensures { CostsOfMisses }
{}

/// What binds at the start is what is active under the start rows.
pub fn start_activity_agrees()
    ensures { StartActivityAgrees }
{}

/// The least times of the connection at one station.
pub fn least_times_worked()
    ensures { LeastTimes }
{}

/// What the least times of the connection cost where the clock binds.
pub fn costs_of_clocks()
    ensures { CostsOfClocks }
{}

/// What is free, and what a relaxed problem violates.
pub fn free_and_violated()
    ensures { FreeAndViolated }
{}

/// Messages that are refused, and why.
pub fn refused_messages()
    ensures { RefusedMessages }
{}

/// A turned pair that closes a cycle is refused, also where the history is full.
pub fn refused_cycle()
    ensures { RefusedCycle }
{}

/// What delays, passed and cancelled events and clocks touch.
pub fn touched_events()
    ensures { TouchedEvents }
{}

/// What is active under the start rows binds at the start, whichever events are cancelled.
pub fn active_at_start_binds()
    ensures { ActiveAtStartBinds }
{}

/// A choice is free exactly where nothing refuses its decisions at once.
pub fn free_where_nothing_refuses()
    ensures { FreeWhereNothingRefuses }
{}

/// The least times where a train ends early, and where it runs on after all.
pub fn least_times_of_cancelled()
    ensures { LeastTimesOfCancelled }
{}

/// What these times cost, and what a change with a cancelled end costs.
pub fn costs_of_cancelled()
    ensures { CostsOfCancelled }
{}

/// An event that passes is no longer cancelled, also where it is recalled.
pub fn passed_is_not_cancelled()
    ensures { PassedIsNotCancelled }
{}

/// What is free where events are cancelled or choices are locked.
pub fn free_of_cancelled_and_locked()
    ensures { FreeOfCancelledAndLocked }
{}

/// Messages that are refused for cancelled events, and what goes before that.
pub fn refused_for_cancelled()
    ensures { RefusedForCancelled }
{}

/// Messages that are refused for locks, or for want of one.
pub fn refused_for_locks()
    ensures { RefusedForLocks }
{}

/// Restoring an event is refused where it closes a cycle.
pub fn restored_cycle()
    ensures { RestoredCycle }
{}
