//! The walk that searches for an order, depth first against the arcs, with its path kept in an array.

ghost use Rattle.std.specs.Prelude.{◌≡◌, ◌+◌, ◌^◌, ◌<◌, ◌≤◌, length, take, slice_index, vec_len, IfErr, IfOk, OnOk};
ghost use Rattle.dm_graph.specs.Inside.Walk.{IsWalk, Closes, Finds, GoesOnTop, Places, SkipsArc, GoesOn, Returns, HasEvenLists, Starts, Visits, PlacesAll, HasPathArcs, ListsPathArcs};
ghost use Rattle.dm_graph.specs.Arrays.{AreArcRows, AreEnds};

use std::alloc::{AllocError, Global};

/// Arcs by arrays: tails and flags go by arc, and the arcs into an event stand in `places`, from the event's offset up to
/// the next one's.
#[derive(Clone, Copy)]
pub struct ArcsByHead<'a> {
    pub tails: &'a [usize],
    pub offsets: &'a [usize],
    pub places: &'a [usize],

    /// Whether an arc is held to.
    pub held: &'a [bool],
}

/// The events that are placed stand at the first places of `order`, those on the path at its last,
/// the one on top first. `rank` has the place of each, or the number of events where it is not met yet.
pub struct Walk {
    pub order: Vec<usize>,
    pub rank: Vec<usize>,
    /// The place in its row of the next arc to look at, for each event.
    pub next: Vec<usize>,
    /// How many events are placed.
    pub placed: usize,
    /// Where the path begins.
    pub top: usize,
}

impl Drop for Walk {
    fn drop(self) {
        let Walk {
            order: _,
            rank: _,
            next: _,
            placed: _,
            top: _,
        } = self;
    }
}

/// What there is to do for the event on top of the path.
pub enum Look {
    /// All its arcs are looked at.
    Over,
    /// The next arc may be passed over.
    Free,
    /// The next arc leaves this event, which is not met yet.
    Unmet(usize),
    /// The next arc leaves the event at this place of the path.
    OnPath(usize),
}

impl Walk {
    /// Room to walk over so many events.
    pub fn new(alloc: Global, events: usize) -> Result<Self, AllocError>
        ensures sized { IfOk result HasEvenLists }
        ensures events { IfOk result (λ walk. length walk.order.items ≡ events) }
    {
        let order = vec![in alloc; 0; events]?;
        let rank = vec![in alloc; 0; events]?;
        let next = vec![in alloc; 0; events]?;
        Ok(Walk {
            order,
            rank,
            next,
            placed: 0,
            top: 0,
        })
    }

    /// Looks at the next arc into the event.
    fn look(&self, event: usize, by_head: &ArcsByHead<'_>) -> Look
        requires walk { IsWalk by_head.now self.now }
        requires event { event < length self.now.order.items }
        ensures { Finds by_head.now self.now event result }
    {
        let place = self.next[event];
        if place == by_head.offsets[event + 1] {
            return Look::Over;
        }
        let arc = by_head.places[place];
        if !by_head.held[arc] {
            return Look::Free;
        }
        let tail = by_head.tails[arc];
        let rank = self.rank[tail];
        if rank < self.placed {
            Look::Free
        } else if rank == self.rank.len() {
            Look::Unmet(tail)
        } else {
            Look::OnPath(rank)
        }
    }

    /// Puts an event that is not met yet on top of the path.
    fn enter(&mut self, event: usize)
        requires room { 0 < self.old.top }
        requires top { self.old.top ≤ vec_len self.old.order }
        requires event { event < vec_len self.old.rank }
        ensures { GoesOnTop self.old event self.new }
    {
        self.top -= 1;
        self.order[self.top] = event;
        self.rank[event] = self.top;
    }

    /// Places the event on top of the path.
    fn place(&mut self, event: usize)
        requires top { self.old.top < vec_len self.old.order }
        requires placed { self.old.placed ≤ self.old.top }
        requires event { event < vec_len self.old.rank }
        ensures { Places self.old event self.new }
    {
        self.order[self.placed] = event;
        self.rank[event] = self.placed;
        self.placed += 1;
        self.top += 1;
    }

    /// Skips the next arc into the event.
    fn skip_arc(&mut self, event: usize)
        requires event { event < vec_len self.old.next }
        requires more { slice_index self.old.next.items event + 1 < 2 ^ 64 }
        ensures { SkipsArc self.old event self.new }
    {
        self.next[event] += 1;
    }

    /// One step for the event on top of the path; the error is the place of the event that closes the path.
    fn step(&mut self, by_head: &ArcsByHead<'_>) -> Result<(), usize>
        requires walk { IsWalk by_head.now self.old }
        requires more { self.old.top < length self.old.order.items }
        ensures goes_on { OnOk result (GoesOn by_head.now self.old self.new) }
        ensures closes { IfErr result (λ place. Closes by_head.now self.new place) }
    {
        let event = self.order[self.top];
        match self.look(event, by_head) {
            Look::Over => {
                self.place(event);
                Ok(())
            }
            Look::Free => {
                self.skip_arc(event);
                Ok(())
            }
            Look::Unmet(tail) => {
                self.enter(tail);
                Ok(())
            }
            Look::OnPath(place) => Err(place),
        }
    }

    /// Steps until the path is empty; the error is the place of the event that closes it.
    fn empty_path(&mut self, by_head: &ArcsByHead<'_>) -> Result<(), usize>
        requires { IsWalk by_head.now self.old }
        ensures returns { OnOk result (Returns by_head.now self.old self.new) }
        ensures closes { IfErr result (λ place. Closes by_head.now self.new place) }
    {
        while self.top < self.order.len() {
            self.step(by_head)?;
        }
        Ok(())
    }

    /// Begins: no event is met.
    fn start(&mut self, offsets: &[usize])
        requires sized { HasEvenLists self.old }
        requires offsets { length self.old.order.items ≤ length offsets.now }
        ensures { Starts self.old offsets.now self.new }
    {
        let count = self.order.len();
        self.rank.fill(count);
        self.next.copy_from_slice(&offsets[..count]);
        self.placed = 0;
        self.top = count;
    }

    /// Places the event, and all that come before it; the error is the place of the event that closes the path.
    fn visit(&mut self, event: usize, by_head: &ArcsByHead<'_>) -> Result<(), usize>
        requires walk { IsWalk by_head.now self.old }
        requires is_empty { self.old.top ≡ length self.old.order.items }
        requires event { event < length self.old.order.items }
        ensures visits { OnOk result (Visits by_head.now self.old event self.new) }
        ensures closes { IfErr result (λ place. Closes by_head.now self.new place) }
    {
        if self.rank[event] == self.order.len() {
            self.enter(event);
            self.empty_path(by_head)?;
        }
        Ok(())
    }

    /// Places every event; the error is the place of the event that closes the path.
    pub fn place_all(&mut self, by_head: &ArcsByHead<'_>) -> Result<(), usize>
        requires sized { HasEvenLists self.old }
        requires rows { AreArcRows (length self.old.order.items) (length by_head.now.tails.now)
            by_head.now.offsets.now by_head.now.places.now }
        requires ends { AreEnds (length self.old.order.items) (length by_head.now.tails.now) by_head.now.tails.now by_head.now.held.now }
        ensures as_many { length self.new.order.items ≡ length self.old.order.items }
        ensures all { OnOk result (PlacesAll by_head.now self.new) }
        ensures closes { IfErr result (λ place. Closes by_head.now self.new place) }
    {
        self.start(by_head.offsets);
        for event in 0..self.order.len() {
            self.visit(event, by_head)?;
        }
        Ok(())
    }

    /// Writes the next arcs of the path from its top to this place, and says how many they are.
    pub fn write_arcs(&self, last: usize, places: &[usize], arcs: &mut [usize]) -> usize
        requires path { HasPathArcs places.now self.now last }
        requires room { length arcs.old ≡ length self.now.order.items }
        ensures within { result ≤ length arcs.new }
        ensures arcs { ListsPathArcs places.now self.now last (take result arcs.new) }
    {
        let count = last + 1 - self.top;
        for k in 0..count {
            arcs[k] = places[self.next[self.order[self.top + k]]];
        }
        count
    }
}
