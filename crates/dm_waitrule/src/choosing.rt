//! The choices of a rule.
ghost use Rattle.std.specs.Prelude.{◌≡◌, ◌<◌, ◌≤◌, ◌↔◌, length, All, IfOk, IsTrue};
ghost use Rattle.dm_base.specs.declared.limits.TheConstants.{DELAY};
ghost use Rattle.dm_rows.specs.Active.{HasNoCycle};
ghost use Rattle.dm_rows.specs.Decide.{with_decisions};
ghost use Rattle.dm_rows.specs.Rows.{IsSized};
ghost use Rattle.dm_propagate.specs.Engine.{IsEngineOf, times_of};
ghost use Rattle.dm_waitrule.specs.Rules.{KeepsWithin, limit_of, with_dropped, IsInTime, Decides, Follows, is_decided_otherwise, differences_to, AreRuled, AreRuleChoices};
ghost use Rattle.dm_waitrule.specs.Inside.Deciding.{KeepsWhereOpen};

use crate::order::rule_order;
use crate::rule::WaitRule;
use dm_base::Steps;
use dm_network::Network;
use dm_paths::change_decision;
use dm_propagate::Engine;
use dm_rows::{Change, Decision, Flip, Rows, is_free_change, span_of};
use dm_settle::NoTimes;
use std::alloc::{AllocError, Global};
use std::marker::Brand;
use std::sync::ledger::{Blank, Ledger};

/// The choices of a rule for rows that have no cycle: the free changes that it decides otherwise than the rows, in ascending
/// id. It begins with every free change dropped and looks at them by the scheduled times of their heads; what it keeps costs
/// what it moves. A number in the rule is at most 1,000,000.
pub fn wait_choices(
    alloc: Global,
    net: &Network,
    rows: &Rows,
    rule: WaitRule,
) -> Result<Vec<Decision>, AllocError>
    requires sized { IsSized net.now rows.now }
    requires no_cycle { HasNoCycle net.now rows.now }
    requires limit { KeepsWithin DELAY rule }
    ensures choices { IfOk result (λ choices. AreRuleChoices net.now rows.now rule choices.items) }
    ensures no_cycle { IfOk result (λ choices. HasNoCycle net.now (with_decisions net.now rows.now choices.items)) }
{
    net.reveal();
    let ruled = ruled(alloc, net, rows, rule)?;
    differences_to(alloc, net, rows, ruled.rows())
}

/// An engine of the rule's rows.
pub fn ruled(
    alloc: Global,
    net: &Network,
    rows: &Rows,
    rule: WaitRule,
) -> Result<Engine, AllocError>
    requires sized { IsSized net.now rows.now }
    requires no_cycle { HasNoCycle net.now rows.now }
    requires limit { KeepsWithin DELAY rule }
    ensures engine { IfOk result (IsEngineOf net.now) }
    ensures ruled { IfOk result (λ engine. AreRuled net.now rows.now rule engine.rows) }
{
    let order = rule_order(alloc, net, rows)?;
    let mut engine = all_dropped(alloc, net, rows, &order)?;
    decide_each(net, &mut engine, &order, rule);
    Ok(engine)
}

/// An engine of the rows with each of these changes dropped.
fn all_dropped(
    alloc: Global,
    net: &Network,
    rows: &Rows,
    order: &[usize],
) -> Result<Engine, AllocError>
    requires sized { IsSized net.now rows.now }
    requires no_cycle { HasNoCycle net.now rows.now }
    requires places { All (λ a. a < length net.now.activities) order.now }
    ensures engine { IfOk result (IsEngineOf net.now) }
    ensures rows { IfOk result (λ engine. engine.rows ≡ with_dropped rows.now order.now) }
{
    let mut dropped = rows.copy()?;
    drop_each(net, &mut dropped, order);
    engine_of(alloc, net, dropped)
}

/// Drops each of these changes.
fn drop_each(net: &Network, rows: &mut Rows, order: &[usize])
    requires sized { IsSized net.now rows.old }
    requires places { All (λ a. a < length net.now.activities) order.now }
    ensures rows { rows.new ≡ with_dropped rows.old order.now }
    ensures sized { IsSized net.now rows.new }
{
    for act in order {
        rows.apply(&Change::Flipped(Flip::Drop { act: *act }));
    }
}

/// The engine of rows that have no cycle.
fn engine_of(alloc: Global, net: &Network, rows: Rows) -> Result<Engine, AllocError>
    requires sized { IsSized net.now rows }
    requires no_cycle { HasNoCycle net.now rows }
    ensures engine { IfOk result (IsEngineOf net.now) }
    ensures rows { IfOk result (λ engine. engine.rows ≡ rows) }
{
    match Engine::new(alloc, net, rows) {
        Ok(engine) => Ok(engine),
        Err(NoTimes::OutOfMemory) => Err(AllocError),
        Err(NoTimes::Cycle(_)) => unreachable!(),
    }
}

/// Keeps the changes that the rule keeps, one after the other.
fn decide_each(net: &Network, engine: &mut Engine, order: &[usize], rule: WaitRule)
    requires engine { IsEngineOf net.now engine.old }
    requires limit { KeepsWithin DELAY rule }
    requires places { All (λ a. a < length net.now.activities) order.now }
    ensures engine { IsEngineOf net.now engine.new }
    ensures follows { Follows net.now (limit_of rule) order.now engine.old.rows engine.new.rows }
{
    for act in order {
        decide(net, engine, *act, rule);
    }
}

/// Keeps a change where it is in time and closes no cycle.
fn decide(net: &Network, engine: &mut Engine, act: usize, rule: WaitRule)
    requires engine { IsEngineOf net.now engine.old }
    requires limit { KeepsWithin DELAY rule }
    requires is_activity { act < length net.now.activities }
    ensures engine { IsEngineOf net.now engine.new }
    ensures decides { Decides net.now (limit_of rule) engine.old.rows act engine.new.rows }
{
    net.reveal();
    if is_in_time(net, engine, act, rule) {
        keep::<Brand>(net, engine, act, Blank::new(1));
    }
}

/// Keeps a change where that closes no cycle; where it does, the engine stays as it is.
fn keep<L: Ledger>(net: &Network, engine: &mut Engine, act: usize, blank: Blank)
    requires engine { IsEngineOf net.now engine.old }
    requires is_activity { act < length net.now.activities }
    requires name { blank.name ≡ L.name }
    requires parts { blank.parts ≡ L.parts }
    requires has_a_part { 0 < blank.parts }
    ensures engine { IsEngineOf net.now engine.new }
    ensures kept { KeepsWhereOpen net.now engine.old.rows act engine.new.rows }
{
    let mut steps = Steps::<L>::new(blank);
    let _outcome = engine.update(net, &Change::Flipped(Flip::Keep { act }), &mut steps);
}

/// Whether the head of a change would be later for it by no more than the rule allows.
fn is_in_time(net: &Network, engine: &Engine, act: usize, rule: WaitRule) -> bool
    requires engine { IsEngineOf net.now engine.now }
    requires limit { KeepsWithin DELAY rule }
    requires is_activity { act < length net.now.activities }
    ensures { IsTrue result ↔ IsInTime net.now engine.now.rows (limit_of rule) act (times_of engine.now) }
{
    match rule {
        WaitRule::Never => is_within(net, engine, act, 0),
        WaitRule::AtMost(limit) => is_within(net, engine, act, limit),
        WaitRule::Always => true,
    }
}

/// Whether it would be later by no more than so many seconds.
fn is_within(net: &Network, engine: &Engine, act: usize, limit: u64) -> bool
    requires engine { IsEngineOf net.now engine.now }
    requires limit { limit ≤ DELAY }
    requires is_activity { act < length net.now.activities }
    ensures { IsTrue result ↔ IsInTime net.now engine.now.rows (Some limit) act (times_of engine.now) }
{
    net.reveal();
    let activity = net.activity(act);
    let times = engine.times();
    let ready = times.time(activity.tail) + span_of(net, engine.rows(), act);
    ready <= times.time(activity.head) + limit
}

/// The decisions of free changes by which other rows differ from these, in ascending id.
pub fn differences_to(
    alloc: Global,
    net: &Network,
    rows: &Rows,
    other: &Rows,
) -> Result<Vec<Decision>, AllocError>
    requires sized { IsSized net.now rows.now }
    requires other { IsSized net.now other.now }
    ensures { IfOk result (λ choices. choices.items ≡ differences_to net.now rows.now other.now) }
{
    let mut choices = Vec::new(alloc);
    for act in 0..net.activities() {
        if is_decided_otherwise(net, rows, other, act) {
            choices.push(change_decision(net, act, other.kept(act)))?;
        }
    }
    Ok(choices)
}

fn is_decided_otherwise(net: &Network, rows: &Rows, other: &Rows, act: usize) -> bool
    requires sized { IsSized net.now rows.now }
    requires other { IsSized net.now other.now }
    requires is_activity { act < length net.now.activities }
    ensures { result ≡ is_decided_otherwise net.now rows.now other.now act }
{
    is_free_change(net, rows, act) && rows.kept(act) != other.kept(act)
}
