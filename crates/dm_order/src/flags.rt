//! The flags of the held activities.
ghost use Rattle.std.specs.Prelude.{◌≡◌, ◌<◌, length, All, true, false};
ghost use Rattle.dm_order.specs.Inside.Flagging.{flagged, taken_back};

/// Whether each activity is held, and beside it the same for an addition that is tried.
pub struct Flags {
    pub held: Vec<bool>,
    pub tried: Vec<bool>,
}

impl Drop for Flags {
    fn drop(self) {
        let Flags { held: _, tried: _ } = self;
    }
}

impl Flags {
    /// Tries activities besides.
    pub fn try_with(&mut self, arcs: &[usize])
        requires { All (λ a. a < length self.old.tried.items) arcs.now }
        ensures tried { self.new.tried.items ≡ flagged true self.old.tried.items arcs.now }
        ensures held { self.new.held.items ≡ self.old.held.items }
    {
        for a in arcs {
            self.tried[*a] = true;
        }
    }

    /// Holds the activities that were tried.
    pub fn keep(&mut self, arcs: &[usize])
        requires { All (λ a. a < length self.old.held.items) arcs.now }
        ensures held { self.new.held.items ≡ flagged true self.old.held.items arcs.now }
        ensures tried { self.new.tried.items ≡ self.old.tried.items }
    {
        for a in arcs {
            self.held[*a] = true;
        }
    }

    /// Tries the activities no more.
    pub fn take_back(&mut self, arcs: &[usize])
        requires tried { All (λ a. a < length self.old.tried.items) arcs.now }
        requires held { All (λ a. a < length self.old.held.items) arcs.now }
        ensures tried { self.new.tried.items ≡ taken_back self.old.held.items self.old.tried.items arcs.now }
        ensures held { self.new.held.items ≡ self.old.held.items }
    {
        for a in arcs {
            self.tried[*a] = self.held[*a];
        }
    }

    /// Lets activities go.
    pub fn release(&mut self, arcs: &[usize])
        requires tried { All (λ a. a < length self.old.tried.items) arcs.now }
        requires held { All (λ a. a < length self.old.held.items) arcs.now }
        ensures tried { self.new.tried.items ≡ flagged false self.old.tried.items arcs.now }
        ensures held { self.new.held.items ≡ flagged false self.old.held.items arcs.now }
    {
        for a in arcs {
            self.tried[*a] = false;
            self.held[*a] = false;
        }
    }
}
