//! The calls that a form in memory was given, some of which fail.
ghost use Rattle.std.specs.Prelude.{◌≡◌, ◌+◌, ◌≤◌, IsTrue, ◌↔◌};
ghost use Rattle.dm_outside.specs.Calls.{IsListed, next_call};
ghost use Rattle.dm_outside.specs.Faults.{HasRisen};

/// How many calls an object was given and how many of them failed, for a form in memory that fails
/// at listed calls. Both count calls, start at 0, and stand still at `u64::MAX`.
#[derive(Clone, Copy)]
pub struct Calls {
    /// The calls so far. The numbers of calls count from 1, so it is the number of the last call.
    pub made: u64,
    /// The calls that failed so far.
    pub faults: u64,
}

impl Calls {
    /// No call yet.
    pub fn new() -> Calls
        ensures made { result.made ≡ 0 }
        ensures faults { result.faults ≡ 0 }
    {
        Calls { made: 0, faults: 0 }
    }

    /// Counts a call, and says whether its number, from 1, is listed among those that fail. A call
    /// past the last number is not listed.
    pub fn is_listed(&mut self, fails: &[u64]) -> bool
        ensures listed { IsTrue result ↔ IsListed self.old.made fails.now }
        ensures made { self.new.made ≡ next_call self.old.made }
        ensures faults { self.new.faults ≡ self.old.faults }
    {
        if self.made == u64::MAX {
            return false;
        }
        self.made += 1;
        fails.contains(&self.made)
    }

    /// Counts a fault.
    pub fn add_fault(&mut self)
        ensures risen { HasRisen self.old.faults self.new.faults }
        ensures later { self.old.faults ≤ self.new.faults }
        ensures counted { self.new.faults ≡ next_call self.old.faults }
        ensures made { self.new.made ≡ self.old.made }
    {
        self.faults = self.faults.saturating_add(1);
    }
}
