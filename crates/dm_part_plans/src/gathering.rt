//! Parts that are judged one by one.
ghost use Rattle.std.specs.Prelude.{◌≡◌, ◌+◌, ◌-◌, ◌++◌, ◌∷◌, ◌^◌, ◌<◌, ◌≤◌, [], length, sum_by, IfOk, OnOk};
ghost use Rattle.dm_base.specs.declared.limits.TheConstants.{PENALTY};
ghost use Rattle.dm_task.specs.Tasks.{IsPosedTask, task_of};
ghost use Rattle.dm_traverse.specs.Moving.{IsOver};
ghost use Rattle.dm_tree.specs.Relaxed.{relaxed_cost_of};
ghost use Rattle.dm_evaluate.specs.Evaluator.{IsEvaluatorOf, times_of};
ghost use Rattle.dm_parts.specs.Parts.{IsTruePart, shares_of};
ghost use Rattle.dm_parts.specs.Shares.{IsShare, within};
ghost use Rattle.dm_parts.specs.Sizes.{ids_of, most_ids};
ghost use Rattle.dm_part_plans.specs.Inside.Claims.{AreTaken, IsSmall};
ghost use Rattle.dm_part_plans.specs.Inside.Gathered.{AreGathered, AreSmall};

use crate::claiming::Claims;
use crate::costing::cost_within;
use crate::growing::part_for;
use dm_base::Cost;
use dm_branch::PartTree;
use dm_evaluate::Evaluator;
use dm_network::Network;
use dm_parts::{Part, Share};
use dm_task::Task;
use std::alloc::AllocError;

/// The most ids that the shares of a plan may have together, so that a text has room for them.
pub(crate) const MOST_IDS: u64 = 65_536;

/// Parts, the sum of their bounds, and how many nodes and ids they have together.
pub(crate) struct Gathered {
    pub(crate) parts: Vec<Part>,
    pub(crate) claims: Claims,
    pub(crate) bound: Cost,
    pub(crate) nodes: u64,
    pub(crate) ids: u64,
}

impl Drop for Gathered {
    fn drop(self) {
        let Gathered {
            parts: _,
            claims: _,
            bound: _,
            nodes: _,
            ids: _,
        } = self;
    }
}

/// The parts that were found, as far as they are true, keep to the budget together, and have few ids.
pub(crate) fn gather(
    task: &Task<'_>,
    evaluator: &mut Evaluator,
    found: &[PartTree],
) -> Result<Gathered, AllocError>
    requires posed { IsPosedTask task.now }
    requires evaluator { IsOver (task_of task.now) evaluator.old }
    ensures gathered { IfOk result (λ g. AreGathered (task_of task.now) g.claims.arrivals.items g.claims.changes.items
        g.parts.items g.bound g.nodes g.ids) }
    ensures evaluator { OnOk result (IsOver (task_of task.now) evaluator.new) }
{
    let mut gathered = Gathered {
        parts: Vec::new(task.alloc),
        claims: Claims::new(task.alloc, task.net)?,
        bound: 0,
        nodes: 0,
        ids: 0,
    };
    for tree in found {
        gathered.take_up(task, evaluator, tree)?;
    }
    Ok(gathered)
}

impl Gathered {
    pub(crate) fn into_parts(self) -> Vec<Part>
        ensures { result ≡ self.parts }
    {
        let Gathered {
            parts,
            claims: _,
            bound: _,
            nodes: _,
            ids: _,
        } = self;
        parts
    }

    /// Adds a part, if it is true and there is room.
    fn take_up(
        &mut self,
        task: &Task<'_>,
        evaluator: &mut Evaluator,
        found: &PartTree,
    ) -> Result<(), AllocError>
        requires posed { IsPosedTask task.now }
        requires evaluator { IsOver (task_of task.now) evaluator.old }
        requires gathered { AreGathered (task_of task.now)
            self.old.claims.arrivals.items self.old.claims.changes.items self.old.parts.items
            self.old.bound self.old.nodes self.old.ids }
        ensures gathered { OnOk result (AreGathered (task_of task.now)
            self.new.claims.arrivals.items self.new.claims.changes.items self.new.parts.items
            self.new.bound self.new.nodes self.new.ids) }
        ensures evaluator { OnOk result (IsOver (task_of task.now) evaluator.new) }
    {
        let Some(share) = self.claims.claim(task.alloc, task.net, &found.share)? else {
            return Ok(());
        };
        let ids = self.ids + ids_in(&share);
        if ids > MOST_IDS {
            return Ok(());
        }
        let room = task.budget - self.nodes;
        let Some(part) = part_for(task, evaluator, share, &found.nodes, room)? else {
            return Ok(());
        };
        self.bound += part.bound;
        self.nodes += part.tree.as_slice().len() as u64;
        self.ids = ids;
        self.parts.push(part)?;
        Ok(())
    }
}

/// How many ids a share has.
pub(crate) fn ids_in(share: &Share) -> u64
    requires small { IsSmall share.now }
    ensures { result ≡ length share.now.arrivals + length share.now.changes }
{
    share.arrivals.as_slice().len() as u64 + share.changes.as_slice().len() as u64
}

/// What the shares of parts cost together where an evaluator stands.
pub(crate) fn cost_of_shares(
    net: &Network,
    evaluator: &Evaluator,
    penalty: u64,
    parts: &[Part],
) -> Cost
    requires evaluator { IsEvaluatorOf net.now evaluator.now }
    requires penalty { penalty ≤ PENALTY }
    requires small { AreSmall net.now parts.now }
    ensures cost { result ≡ sum_by (λ share. relaxed_cost_of (within net.now share) evaluator.now.rows evaluator.now.path
        (times_of evaluator.now) penalty) (shares_of parts.now) }
{
    let mut sum: Cost = 0;
    for part in parts {
        sum += cost_within(net, evaluator, penalty, &part.share);
    }
    sum
}
