//! What holds of every timetable that is kept. A law has no code: it is proved as the contract of an empty function.

ghost use Rattle.dm_network.specs.Net.{Net};
ghost use Rattle.dm_network.specs.Held.{is_held, HasNoCycleOf};
ghost use Rattle.dm_settle.specs.Constraints.{graph_given};
ghost use Rattle.dm_settle.specs.Settling.{AreLeast};
ghost use Rattle.dm_live.specs.Live.{LiveValue, IsLive, IsAtRest};

/// Its held activities have no cycle. So an activity that was let go is not refused when it is held again.
pub fn live_has_no_cycle()
    ensures { (net : Net) (live : LiveValue) → IsLive net live → HasNoCycleOf net (is_held live.given.held) }
{}

/// Where no event is marked, its times are the least timetable of its constraints.
pub fn least_at_rest()
    ensures { (net : Net) (live : LiveValue) → IsLive net live → IsAtRest live → AreLeast (graph_given net live.given) live.times }
{}
