//! What the events of a network are held to.
ghost use Rattle.std.specs.Prelude.{◌≡◌, ◌+◌, ◌<◌, ◌≤◌, length, slice_index, slice_set, IfOk};
ghost use Rattle.dm_base.specs.declared.limits.TheConstants.{PASSED_TIME, BOUND, DELAY};
ghost use Rattle.dm_network.specs.Held.{is_held};
ghost use Rattle.dm_settle.specs.Constraints.{nothing_held, AreWithinLimits};

use dm_base::Secs;
use dm_network::Network;
use std::alloc::{AllocError, Global};
use std::marker::Model;

/// Which activities of a network are held, the floor of each event and the span of each activity, by place. The head of a
/// held activity is at least its span after its tail, and no event is before its floor. Floors and spans are seconds.
pub struct Constraints {
    held: Vec<bool>,
    floors: Vec<Secs>,
    spans: Vec<Secs>,
}

impl Drop for Constraints {
    fn drop(self) {
        let Constraints {
            held: _,
            floors: _,
            spans: _,
        } = self;
    }
}

impl Model for Constraints {
    ghost use Rattle.dm_settle.specs.Constraints.{ConstraintsValue, AreWithinLimits};

    ghost Value = { ConstraintsValue };

    ghost view = { λ c. record { held = c.held.items; floors = c.floors.items; spans = c.spans.items } };

    ghost invariant = { λ c. AreWithinLimits c.floors.items c.spans.items };
}

impl Constraints {
    /// Constraints of a network that hold nothing: no activity is held, and floors and spans are 0.
    pub fn new(alloc: Global, net: &Network) -> Result<Constraints, AllocError>
        ensures { IfOk result (λ c. c ≡ nothing_held net.now) }
    {
        let held = vec![in alloc; false; net.activities()]?;
        let floors = vec![in alloc; 0; net.events()]?;
        let spans = vec![in alloc; 0; net.activities()]?;
        Ok(Constraints {
            held,
            floors,
            spans,
        })
    }

    /// What holds of all constraints, for a caller's proof. It does nothing.
    pub fn within_limits(&self)
        ensures { AreWithinLimits self.now.floors self.now.spans }
    {
        let _events = self.floors.len();
    }

    /// Whether each activity is held.
    pub fn held(&self) -> &[bool]
        ensures { result.now ≡ self.now.held }
    {
        &self.held
    }

    /// Whether the activity at a place is held.
    pub fn is_held(&self, a: usize) -> bool
        requires { a < length self.now.held }
        ensures { result ≡ is_held self.now.held a }
    {
        self.held[a]
    }

    /// The least time of the event at a place by itself, in seconds.
    pub fn floor(&self, i: usize) -> Secs
        requires { i < length self.now.floors }
        ensures value { result ≡ slice_index self.now.floors i }
        ensures limit { result ≤ PASSED_TIME }
    {
        self.floors[i]
    }

    /// The least time from the tail to the head of the activity at a place, in seconds.
    pub fn span(&self, a: usize) -> Secs
        requires { a < length self.now.spans }
        ensures value { result ≡ slice_index self.now.spans a }
        ensures limit { result ≤ BOUND + DELAY }
    {
        self.spans[a]
    }

    /// Holds the activity at a place, or lets it go.
    pub fn set_held(&mut self, a: usize, held: bool)
        requires { a < length self.old.held }
        ensures { self.new ≡ record self.old { held = slice_set self.old.held a held } }
    {
        self.held[a] = held;
    }

    /// Sets the floor of the event at a place, in seconds, at most the latest passed time.
    pub fn set_floor(&mut self, i: usize, floor: Secs)
        requires is_event { i < length self.old.floors }
        requires limit { floor ≤ PASSED_TIME }
        ensures { self.new ≡ record self.old { floors = slice_set self.old.floors i floor } }
    {
        self.floors[i] = floor;
    }

    /// Sets the span of the activity at a place, in seconds, at most a lower bound and a delay together.
    pub fn set_span(&mut self, a: usize, span: Secs)
        requires is_activity { a < length self.old.spans }
        requires limit { span ≤ BOUND + DELAY }
        ensures { self.new ≡ record self.old { spans = slice_set self.old.spans a span } }
    {
        self.spans[a] = span;
    }
}
