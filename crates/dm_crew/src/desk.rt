//! A server and one of its passes, as a desk.

ghost use Rattle.std.specs.Prelude.{◌≡◌, false, Some, IfOk};
ghost use Rattle.std.specs.Option.{ForSome};
ghost use Rattle.dm_desk.specs.Desks.{Posts, TellsTime, TellsCost, TellsLength, IsCopied, IsAdoptable, AdoptsPlan, CarriesPlan};
ghost use Rattle.dm_server.specs.declared.kept.Base.{Base as ABase};
ghost use Rattle.dm_tree.specs.Plans.{chosen};
ghost use Rattle.dm_crew.specs.Passes.{desk_of, IsSamePass};

use dm_base::{Cost, EventId, Secs};
use dm_desk::Desk;
use dm_rows::{At, Decision, Entry, Refusal, Snapshot};
use dm_server::{Kept, Server};
use dm_tree::AdoptRefusal;
use dm_turn::Pass;
use std::alloc::AllocError;
use std::marker::{Brand, PhantomData};
use std::sync::Wait;

/// Which pass a desk has: what it was at first, and its base. Each call that makes a desk picks it.
pub trait Seat {
    ghost use Rattle.dm_server.specs.declared.kept.Base.{Base};
    ghost use Rattle.dm_turn.specs.Passes.{PassValue};

    ghost base: { Base };

    ghost pass: { PassValue Base };
}

impl Seat for Brand {
    ghost use Rattle.dm_crew.specs.Inside.Seats.{no_base, no_pass};

    ghost base = { no_base };

    ghost pass = { no_pass };
}

/// A server, for a pass that waits until it is served.
#[derive(Drop)]
pub struct Caller<'a, 's, 'n, R: Wait> {
    pub rt: &'a R,
    pub server: &'s Server<'n>,

    /// How many plans a feed may have.
    pub plans: u32,
}

/// A server with an idle pass of its own, as a desk.
#[derive(Drop)]
pub struct ServerDesk<'a, 's, 'n, R: Wait, P: Seat> {
    pub caller: Caller<'a, 's, 'n, R>,
    pub pass: Pass<Kept<'n>>,
    pub of: PhantomData<P>,
    pub ghost here: { pass.turn ≡ caller.server.now.id },
    pub ghost idle: { pass.holds ≡ false },
    pub ghost base: { pass.base ≡ Some P.base },
    pub ghost same: { IsSamePass P.pass pass },
}

impl<R: Wait, P: Seat> Desk for ServerDesk<'_, '_, '_, R, P> {
    ghost use Rattle.dm_crew.specs.Passes.{desk_of};

    ghost value = { λ d. desk_of d.caller.plans P.base d.pass };

    fn plans(&self) -> u32 {
        self.caller.plans
    }

    fn post(&mut self, entry: Entry) -> Result<u32, At<Refusal>> {
        self.caller.post(&mut self.pass, entry)
    }

    fn time(&mut self, event: EventId) -> Result<(Secs, u32), At<Refusal>> {
        self.caller.time(&mut self.pass, event)
    }

    fn cost(&mut self) -> (Cost, u32) {
        self.caller.cost(&mut self.pass)
    }

    fn length(&mut self) -> u32 {
        self.caller.length(&mut self.pass)
    }

    fn snapshot(&mut self) -> Result<Snapshot, AllocError> {
        self.caller.snapshot(&mut self.pass)
    }

    fn adopt(
        &mut self,
        entry: u32,
        choices: &[Decision],
        feed: u32,
        line: u32,
    ) -> Result<u32, AdoptRefusal> {
        self.caller
            .adopt(&mut self.pass, entry, choices, feed, line)
    }

    fn carry(&mut self, choices: &[Decision], feed: u32, line: u32) -> Result<u32, At<Refusal>> {
        self.caller.carry(&mut self.pass, choices, feed, line)
    }
}

impl<'n, R: Wait> Caller<'_, '_, 'n, R> {
    /// Enters a message.
    fn post(&self, pass: &mut Pass<Kept<'n>>, entry: Entry) -> Result<u32, At<Refusal>>
        requires turn { pass.old.turn ≡ self.now.server.now.id }
        requires idle { pass.old.holds ≡ false }
        ensures same { IsSamePass pass.old pass.new }
        ensures posts { (base : ABase) → pass.old.base ≡ Some base
            → Posts (desk_of self.now.plans base pass.old) (desk_of self.now.plans base pass.new) entry result }
    {
        self.server.post(self.rt, pass, entry)
    }

    fn time(&self, pass: &mut Pass<Kept<'n>>, event: EventId) -> Result<(Secs, u32), At<Refusal>>
        requires turn { pass.old.turn ≡ self.now.server.now.id }
        requires idle { pass.old.holds ≡ false }
        ensures same { IsSamePass pass.old pass.new }
        ensures tells { (base : ABase) → pass.old.base ≡ Some base
            → TellsTime (desk_of self.now.plans base pass.old) (desk_of self.now.plans base pass.new) event result }
    {
        self.server.time(self.rt, pass, event)
    }

    /// What the rows cost.
    fn cost(&self, pass: &mut Pass<Kept<'n>>) -> (Cost, u32)
        requires turn { pass.old.turn ≡ self.now.server.now.id }
        requires idle { pass.old.holds ≡ false }
        ensures same { IsSamePass pass.old pass.new }
        ensures tells { (base : ABase) → pass.old.base ≡ Some base
            → TellsCost (desk_of self.now.plans base pass.old) (desk_of self.now.plans base pass.new) result }
    {
        self.server.cost(self.rt, pass)
    }

    /// How many entries there are.
    fn length(&self, pass: &mut Pass<Kept<'n>>) -> u32
        requires turn { pass.old.turn ≡ self.now.server.now.id }
        requires idle { pass.old.holds ≡ false }
        ensures same { IsSamePass pass.old pass.new }
        ensures tells { (base : ABase) → pass.old.base ≡ Some base
            → TellsLength (desk_of self.now.plans base pass.old) (desk_of self.now.plans base pass.new) result }
    {
        self.server.length(self.rt, pass)
    }

    /// How many entries there are, and rows equal to those after them.
    fn snapshot(&self, pass: &mut Pass<Kept<'n>>) -> Result<Snapshot, AllocError>
        requires turn { pass.old.turn ≡ self.now.server.now.id }
        requires idle { pass.old.holds ≡ false }
        ensures same { IsSamePass pass.old pass.new }
        ensures copied { (base : ABase) → pass.old.base ≡ Some base
            → IfOk result (IsCopied (desk_of self.now.plans base pass.old) (desk_of self.now.plans base pass.new)) }
    {
        self.server.snapshot(self.rt, pass)
    }

    /// Enters those of the choices that are free after the history that is then seen.
    fn carry(
        &self,
        pass: &mut Pass<Kept<'n>>,
        choices: &[Decision],
        feed: u32,
        line: u32,
    ) -> Result<u32, At<Refusal>>
        requires turn { pass.old.turn ≡ self.now.server.now.id }
        requires idle { pass.old.holds ≡ false }
        ensures same { IsSamePass pass.old pass.new }
        ensures carries { (base : ABase) → pass.old.base ≡ Some base
            → CarriesPlan (desk_of self.now.plans base pass.old) (desk_of self.now.plans base pass.new) choices.now feed line result }
    {
        self.server.carry(self.rt, pass, choices, feed, line)
    }

    /// Adopts choices for rows that were seen.
    fn adopt(
        &self,
        pass: &mut Pass<Kept<'n>>,
        entry: u32,
        choices: &[Decision],
        feed: u32,
        line: u32,
    ) -> Result<u32, AdoptRefusal>
        requires turn { pass.old.turn ≡ self.now.server.now.id }
        requires idle { pass.old.holds ≡ false }
        requires plan { ForSome pass.old.base (λ base. IsAdoptable (desk_of self.now.plans base pass.old) (chosen entry choices.now)) }
        ensures same { IsSamePass pass.old pass.new }
        ensures adopts { (base : ABase) → pass.old.base ≡ Some base
            → AdoptsPlan (desk_of self.now.plans base pass.old) (desk_of self.now.plans base pass.new) (chosen entry choices.now) feed line
            result }
    {
        self.server.adopt(self.rt, pass, entry, choices, feed, line)
    }
}
