//! Answers that tell times, costs and refusals of rows.
ghost use Rattle.std.specs.Prelude.{◌≡◌, ◌≤◌, ℕ, List, length, IfOk};
ghost use Rattle.dm_base.specs.declared.limits.TheConstants.{PENALTY};
ghost use Rattle.dm_feed.specs.Lines.{IsSpelledLine};
ghost use Rattle.dm_rows.specs.declared.messages.Entry.{Entry};
ghost use Rattle.dm_cert.specs.Answers.{Setting, IsRefused, IsTimeAt, IsUnknownAt, IsCostAt, rows_after};
ghost use Rattle.dm_check_rows.specs.Claims.{AreCheckedRowsOf, Tells};
ghost use Rattle.dm_check_answers.specs.Claims.{IsTrueClaim};
ghost use Rattle.dm_check_answers.specs.Judging.{setting_of, history_of};

use crate::journal::Journal;
use crate::replay::Replay;
use dm_base::{Cost, EventId, Secs};
use dm_cert::Reply;
use dm_check_rows::{CheckedRows, is_refused};
use dm_check_times::HeldCycle;
use dm_feed::Line;
use dm_network::Network;
use dm_rows::{Message, Refusal};
use std::alloc::AllocError;

impl<'a> Replay<'a> {
    /// Whether the answer to a line claims something of the rows at an entry, and that is true. It is told from what is known of
    /// claims, or else from the rows.
    pub(crate) fn is_true_claim(&mut self, said: &Line, reply: &Reply) -> Result<bool, AllocError>
        requires { IsSpelledLine said.now }
        ensures tells { IfOk result (Tells (IsTrueClaim self.old.journal.setting self.old.journal.history said.now reply.now)) }
        ensures same { self.new.journal ≡ self.old.journal }
    {
        if let Some(verdict) = self.known.verdict(said, reply) {
            return Ok(verdict);
        }
        match said {
            Line::Say(message) => match reply {
                Reply::Refused(at) => self.is_refused_at(at.entry, message, &at.why),
                _ => Ok(false),
            },
            Line::Time(event) => match reply {
                Reply::Time(number, time) => self.is_time_at(*number, *event, *time),
                _ => Ok(false),
            },
            Line::CostNow => match reply {
                Reply::Cost(number, cost) => self.is_cost_at(*number, *cost),
                _ => Ok(false),
            },
            Line::Plan(_) | Line::Solve(_) | Line::Adopt | Line::Carry | Line::Read => Ok(false),
        }
    }

    /// Whether the rows after so many entries refuse a message for this reason.
    pub(crate) fn is_refused_at(
        &mut self,
        number: u32,
        message: &Message,
        why: &Refusal,
    ) -> Result<bool, AllocError>
        ensures tells { IfOk result (Tells (IsRefused self.old.journal.setting self.old.journal.history number message.now
            why.now)) }
        ensures same { self.new.journal ≡ self.old.journal }
    {
        match self.reach(number) {
            Ok(true) => is_refused(
                self.journal.setting.alloc,
                self.journal.setting.net,
                &self.checked,
                number,
                message,
                why,
            ),
            Ok(false) => Ok(false),
            Err(AllocError) => Err(AllocError),
        }
    }

    /// Whether this is the time of the event after so many entries.
    fn is_time_at(&mut self, number: u32, event: EventId, time: Secs) -> Result<bool, AllocError>
        ensures tells { IfOk result (Tells (IsTimeAt self.old.journal.setting self.old.journal.history number event time)) }
        ensures same { self.new.journal ≡ self.old.journal }
    {
        match self.reach(number) {
            Ok(true) => Ok(is_time(self.journal.setting.net, &mut self.checked, event, time)),
            Ok(false) => Ok(false),
            Err(AllocError) => Err(AllocError),
        }
    }

    /// Whether this is the cost after so many entries.
    fn is_cost_at(&mut self, number: u32, cost: Cost) -> Result<bool, AllocError>
        ensures tells { IfOk result (Tells (IsCostAt self.old.journal.setting self.old.journal.history number cost)) }
        ensures same { self.new.journal ≡ self.old.journal }
    {
        let penalty = self.journal.setting.penalty;
        match self.reach(number) {
            Ok(true) => Ok(is_cost(self.journal.setting.net, penalty, &mut self.checked, cost)),
            Ok(false) => Ok(false),
            Err(AllocError) => Err(AllocError),
        }
    }
}

/// Whether this is the time of an event in the least timetable of rows. Where they have none, no time is.
fn is_time(net: &Network, checked: &mut CheckedRows, event: EventId, time: Secs) -> bool
    requires { AreCheckedRowsOf net.now checked.old }
    ensures tells { (s : Setting) (history : List Entry) (n : ℕ) → s.net ≡ net.now → n ≤ length history
        → checked.old.rows ≡ rows_after s history n → Tells (IsTimeAt s history n event time) result }
    ensures stands { AreCheckedRowsOf net.now checked.new }
    ensures rows { checked.new.rows ≡ checked.old.rows }
{
    let Some(place) = net.place_of(event) else {
        return false;
    };
    net.reveal();
    match checked.settle_times(net) {
        Ok(()) => checked.is_time(place, time as u128),
        Err(HeldCycle) => false,
    }
}

/// Whether rows cost this. Where they have no least timetable, they cost nothing.
fn is_cost(net: &Network, penalty: u64, checked: &mut CheckedRows, cost: Cost) -> bool
    requires stands { AreCheckedRowsOf net.now checked.old }
    requires penalty { penalty ≤ PENALTY }
    ensures tells { (s : Setting) (history : List Entry) (n : ℕ) → s.net ≡ net.now → s.penalty ≡ penalty → n ≤ length history
        → checked.old.rows ≡ rows_after s history n → Tells (IsCostAt s history n cost) result }
    ensures stands { AreCheckedRowsOf net.now checked.new }
    ensures rows { checked.new.rows ≡ checked.old.rows }
{
    net.reveal();
    match checked.settle(net) {
        Ok(()) => checked.is_cost(net, penalty, cost),
        Err(HeldCycle) => false,
    }
}

/// Whether there are so many entries, and the reason is that there is no such event.
pub(crate) fn is_unknown_at(
    journal: &Journal<'_>,
    number: u32,
    event: EventId,
    why: &Refusal,
) -> bool
    ensures { Tells (IsUnknownAt (setting_of journal.now.setting) (history_of journal.now) number event why.now) result }
{
    if number as usize > journal.entries.len() {
        return false;
    }
    if let Some(_place) = journal.setting.net.place_of(event) {
        return false;
    }
    match why {
        Refusal::UnknownEvent(said) => said.0 == event.0,
        _ => false,
    }
}
