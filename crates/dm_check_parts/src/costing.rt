//! What the terms of a share cost in a relaxed problem.
ghost use Rattle.std.specs.Prelude.{◌≡◌, ◌+◌, ◌*◌, ◌^◌, ◌<◌, ◌≤◌, length, sum_by};
ghost use Rattle.dm_base.specs.declared.limits.TheConstants.{WEIGHT};
ghost use Rattle.dm_network.specs.Net.{event_place, activity_place};
ghost use Rattle.dm_rows.specs.Cost.{event_cost, cancelled_weight, charged_weight, missed_weight};
ghost use Rattle.dm_rows.specs.Rows.{IsSized};
ghost use Rattle.dm_rows.specs.Relax.{is_relaxed_lost};
ghost use Rattle.dm_tree.specs.Relaxed.{relaxed_cost_of};
ghost use Rattle.dm_parts.specs.Shares.{within, IsShare};
ghost use Rattle.dm_parts.specs.Sizes.{most_ids};
ghost use Rattle.dm_parts.specs.Sums.{at_place};
ghost use Rattle.dm_check_times.specs.Binding.{AreBelowLimit};
ghost use Rattle.dm_check_plans.specs.RelaxedProblems.{IsRelaxedProblemOf, IsSolved, times_of};

use crate::grounds::Grounds;
use dm_base::{ActId, Cost, EventId, Milli, Secs};
use dm_check_plans::RelaxedProblem;
use dm_check_times::{cancelled_weight, event_cost, missed_weight};
use dm_network::Network;
use dm_parts::Share;
use dm_rows::Rows;

/// What the lateness of the event with this id costs.
fn lateness_at(net: &Network, rows: &Rows, times: &[Secs], id: EventId) -> Cost
    requires sized { IsSized net.now rows.now }
    requires as_many { length times.now ≡ length net.now.events }
    requires early { AreBelowLimit times.now }
    ensures cost { result ≡ at_place (event_cost net.now rows.now times.now) (event_place net.now id) }
    ensures limit { result ≤ WEIGHT * 2 ^ 38 }
{
    match net.place_of(id) {
        Some(place) => event_cost(net, rows, times, place),
        None => 0,
    }
}

/// What the lateness of the events with these ids costs.
fn lateness_of(net: &Network, rows: &Rows, times: &[Secs], ids: &[EventId]) -> Cost
    requires sized { IsSized net.now rows.now }
    requires as_many { length times.now ≡ length net.now.events }
    requires early { AreBelowLimit times.now }
    requires few { length ids.now ≤ most_ids }
    ensures cost { result ≡ sum_by (λ id. at_place (event_cost net.now rows.now times.now) (event_place net.now id)) ids.now }
    ensures limit { result ≤ most_ids * (WEIGHT * 2 ^ 38) }
{
    let mut total = 0;
    for id in ids {
        total += lateness_at(net, rows, times, *id);
    }
    total
}

/// The weight of the event with this id, where it is a cancelled arrival.
fn cancelled_at(net: &Network, rows: &Rows, id: EventId) -> Cost
    requires sized { IsSized net.now rows.now }
    ensures weight { result ≡ at_place (cancelled_weight net.now rows.now) (event_place net.now id) }
    ensures limit { result ≤ WEIGHT }
{
    match net.place_of(id) {
        Some(place) => cancelled_weight(net, rows, place) as u128,
        None => 0,
    }
}

/// The weights of the cancelled arrivals with these ids.
fn cancelled_of(net: &Network, rows: &Rows, ids: &[EventId]) -> Cost
    requires sized { IsSized net.now rows.now }
    requires few { length ids.now ≤ most_ids }
    ensures weights { result ≡ sum_by (λ id. at_place (cancelled_weight net.now rows.now) (event_place net.now id)) ids.now }
    ensures limit { result ≤ most_ids * WEIGHT }
{
    let mut total = 0;
    for id in ids {
        total += cancelled_at(net, rows, *id);
    }
    total
}

impl Grounds<'_> {
    /// What the share costs in the relaxed problem of the path, where the times are the least ones.
    pub fn cost_within(&self, problem: &RelaxedProblem, share: &Share) -> Cost
        requires problem { IsRelaxedProblemOf self.now.net.now self.now.rows.now problem.now }
        requires solved { IsSolved self.now.net.now self.now.rows.now problem.now }
        requires share { IsShare self.now.net.now share.now }
        requires few { length share.now.arrivals + length share.now.changes ≤ most_ids }
        ensures cost { result ≡ relaxed_cost_of (within self.now.net.now share.now) self.now.rows.now problem.now.path
            (times_of problem.now) self.now.penalty }
        ensures limit { result < 2 ^ 100 }
    {
        self.net.reveal();
        let arrivals = share.arrivals.as_slice();
        let late = lateness_of(self.net, self.rows, problem.times(), arrivals);
        let weights = cancelled_of(self.net, self.rows, arrivals)
            + self.weights_of(problem, share.changes.as_slice());
        late + self.penalty as u128 * weights
    }

    /// The weight of the change with this id as often as the penalty is taken for it: where it is charged for, and where its passed
    /// head has missed it.
    fn weight_at(&self, problem: &RelaxedProblem, id: ActId) -> Cost
        requires problem { IsRelaxedProblemOf self.now.net.now self.now.rows.now problem.now }
        requires solved { IsSolved self.now.net.now self.now.rows.now problem.now }
        ensures weight { result ≡ at_place (charged_weight self.now.net.now (is_relaxed_lost self.now.net.now self.now.rows.now
            problem.now.path)) (activity_place self.now.net.now id)
            + at_place (missed_weight self.now.net.now self.now.rows.now (times_of problem.now)) (activity_place self.now.net.now id) }
        ensures limit { result ≤ 2 * WEIGHT }
    {
        self.net.reveal();
        match self.net.act_place(id) {
            Some(place) => {
                let missed = missed_weight(self.net, self.rows, problem.times(), place);
                self.charged_weight(problem, place) as u128 + missed as u128
            }
            None => 0,
        }
    }

    /// The weight of an activity where it is charged for, and else 0.
    fn charged_weight(&self, problem: &RelaxedProblem, a: usize) -> Milli
        requires problem { IsRelaxedProblemOf self.now.net.now self.now.rows.now problem.now }
        requires is_activity { a < length self.now.net.now.activities }
        ensures weight { result ≡ charged_weight self.now.net.now (is_relaxed_lost self.now.net.now self.now.rows.now
            problem.now.path) a }
        ensures limit { result ≤ WEIGHT }
    {
        self.net.reveal();
        if problem.is_charged(self.net, self.rows, a) {
            self.net.activity(a).weight
        } else {
            0
        }
    }

    /// The weights of the changes with these ids.
    fn weights_of(&self, problem: &RelaxedProblem, ids: &[ActId]) -> Cost
        requires problem { IsRelaxedProblemOf self.now.net.now self.now.rows.now problem.now }
        requires solved { IsSolved self.now.net.now self.now.rows.now problem.now }
        requires few { length ids.now ≤ most_ids }
        ensures weights { result ≡ sum_by (λ id. at_place (charged_weight self.now.net.now (is_relaxed_lost self.now.net.now
            self.now.rows.now problem.now.path)) (activity_place self.now.net.now id)
            + at_place (missed_weight self.now.net.now self.now.rows.now (times_of problem.now)) (activity_place self.now.net.now id)) ids.now }
        ensures limit { result ≤ most_ids * (2 * WEIGHT) }
    {
        let mut total = 0;
        for id in ids {
            total += self.weight_at(problem, *id);
        }
        total
    }
}
