//! What holds of every graph. A law has no code: it is proved as the contract of an empty function.

ghost use Rattle.std.specs.Prelude.{◌≡◌, ℕ, ◌+◌, ◌*◌, ◌<◌, ◌≤◌, ◌↔◌, ◌⊎◌, ◌==◌, Bool, List, length, filter, slice_index, slice_range};
ghost use Rattle.std.specs.List.{range_with_len};
ghost use Rattle.dm_graph.specs.Arcs.{Arcs, Binds, BindsIn, IsOrder, HasNoCycle};
ghost use Rattle.dm_graph.specs.Graph.{Graph, Meets, IsLeast, CanBeMet, HasLeast, HasPositiveCycles, AsksNoMore, IsJoin};
ghost use Rattle.dm_graph.specs.Arrays.{arcs_in_arrays, AreArraysOf, AreArcRows, ListsArcs};

/// At most one timetable is least, at the graph's events.
pub fn one_is_least()
    ensures { (g : Graph) (x y : ℕ → ℕ) → IsLeast g x → IsLeast g y →
        (e : ℕ) → e < g.shape.events → x e ≡ y e }
{}

/// Where an order exists there is no cycle, whatever the spans.
pub fn orders_have_no_cycle()
    ensures { (g : Arcs) (order : List ℕ) → IsOrder g order → HasNoCycle g }
{}

/// Where there is no cycle, a timetable is least, whatever the spans.
pub fn least_exists_without_cycle()
    ensures { (g : Graph) → HasNoCycle g.shape → HasLeast g }
{}

/// Without a cycle, no time of the least timetable is above the highest floor by more than the longest span for each event.
pub fn least_is_bounded()
    ensures { (g : Graph) (x : ℕ → ℕ) (floor span : ℕ) →
        ((e : ℕ) → e < g.shape.events → g.floor e ≤ floor) → ((a : ℕ) → Binds g.shape a → g.span a ≤ span) →
        HasNoCycle g.shape → IsLeast g x → (e : ℕ) → e < g.shape.events → x e ≤ floor + g.shape.events * span }
{}

/// A graph whose cycles all have a span of more than 0 can be met exactly where it has no cycle.
pub fn met_exactly_without_cycle()
    ensures { (g : Graph) → HasPositiveCycles g → CanBeMet g ↔ HasNoCycle g.shape }
{}

/// A graph that asks no more has the earlier least times.
pub fn less_is_no_later()
    ensures { (less more : Graph) (x y : ℕ → ℕ) → AsksNoMore less more → IsLeast less x → IsLeast more y →
        (e : ℕ) → e < more.shape.events → x e ≤ y e }
{}

/// A timetable that is least for a graph that asks no more, and meets the other, is least for the other.
pub fn least_for_less_that_meets_more()
    ensures { (less more : Graph) (x : ℕ → ℕ) → AsksNoMore less more → IsLeast less x → Meets more x → IsLeast more x }
{}

/// Graphs that ask the same have the same least timetable.
pub fn same_is_least_alike()
    ensures { (g h : Graph) (x : ℕ → ℕ) → AsksNoMore g h → AsksNoMore h g → IsLeast g x → IsLeast h x }
{}

/// Where an order exists, times that are each the join over the others are least.
pub fn joins_along_an_order_are_least()
    ensures { (g : Graph) (order : List ℕ) (x : ℕ → ℕ) → IsOrder g.shape order →
        ((e : ℕ) → e < g.shape.events → IsJoin g x e (x e)) → IsLeast g x }
{}

/// Where each arc has a span of more than 0 or binds among arcs without a cycle, each cycle has a span of more than 0.
pub fn cycles_are_positive_beyond_arcs_without_one()
    ensures { (g : Graph) (h : Arcs) → ((a : ℕ) → Binds g.shape a → (0 < g.span a) ⊎ BindsIn g.shape h a) →
        HasNoCycle h → HasPositiveCycles g }
{}

/// Windows of one list that hold, for each event, the places of the arcs that end there, are rows that list them.
pub fn filtered_windows_are_rows()
    ensures { (events arcs : ℕ) (end : ℕ → ℕ) (offsets places : List ℕ) → length offsets ≡ events + 1 →
        ((e : ℕ) → e < events → slice_index offsets e ≤ slice_index offsets (e + 1)) →
        ((e : ℕ) → e < events → slice_index offsets (e + 1) ≤ length places) →
        ((e : ℕ) → e < events →
        slice_range places (slice_index offsets e) (slice_index offsets (e + 1))
        ≡ filter (λ a. end a == e) (range_with_len 0 arcs)) →
        AreArcRows events arcs offsets places × ListsArcs events arcs end offsets places }
{}

/// Arrays whose rows list the arcs by their heads give the arcs of those tails, heads and flags.
pub fn arrays_give_arcs()
    ensures { (events : ℕ) (tails heads offsets places : List ℕ) (held : List Bool) →
        length offsets ≡ events + 1 →
        ListsArcs events (length tails) (arcs_in_arrays events tails heads held).head offsets places →
        AreArraysOf (arcs_in_arrays events tails heads held) tails offsets places held }
{}
