//! What holds of every graph and its times. A law has no code: it is proved as the contract of an empty function.

ghost use Rattle.std.specs.Prelude.{ℕ, ◌<◌, List};
ghost use Rattle.dm_graph.specs.Arcs.{HasNoCycle};
ghost use Rattle.dm_graph.specs.Graph.{Graph};
ghost use Rattle.dm_settle.specs.Constraints.{IsBounded};
ghost use Rattle.dm_settle.specs.Settling.{AreLeast, IsSettled, AreEarly};

/// In the least timetable of a graph, every event has the least time that the graph allows beside the others.
pub fn least_is_settled()
    ensures { (g : Graph) (times : List ℕ) → AreLeast g times →
        (e : ℕ) → e < g.shape.events → IsSettled g times e }
{}

/// In the least timetable of a graph without a cycle whose floors and spans are within the limits, every time is below
/// 2^38.
pub fn least_is_early()
    ensures { (g : Graph) (times : List ℕ) → IsBounded g → HasNoCycle g.shape → AreLeast g times → AreEarly times }
{}
