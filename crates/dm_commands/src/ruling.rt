//! A waiting rule set beside a plan, in print.
ghost use Rattle.std.specs.Prelude.{◌≡◌, ◌≤◌, IfOk};
ghost use Rattle.dm_ruling.specs.Texts.{comparison_text};
ghost use Rattle.dm_waitrule.specs.Kinds.{bound_of};
ghost use Rattle.dm_commands.specs.Ends.{EndsAs};
ghost use Rattle.dm_commands.specs.Ruled.{rule_named, ComparesFor};
ghost use Rattle.dm_desk.specs.Searching.{Searches};
ghost use Rattle.dm_commands.specs.Inside.Asking.{EndsCompared};
ghost use Rattle.dm_commands.specs.Inside.Stages.{AreRulesWithin};

use crate::searching::search_for;
use crate::status::Status;
use dm_desk::PlanRequest;
use dm_outside::{Sink, WriteFault};
use dm_parts::AnyPlan;
use dm_ruling::print_comparison;
use dm_table::Table;
use dm_waitrule::{Comparison, WaitRule, compare};
use dm_words::{RuleWord, RulesWords};
use std::alloc::{AllocError, Global};

/// Prints what a rule chooses after all entries, beside a plan.
pub fn end_rules<F: Fn(&PlanRequest<'_>) -> Result<AnyPlan, AllocError>, K: Sink>(
    alloc: Global,
    search: &F,
    table: &Table<'_>,
    asked: RulesWords,
    out: &mut K,
) -> Status
    requires searches { Searches (F.pre search.now) (F.post search.now) }
    requires within { AreRulesWithin asked }
    ensures ends { EndsCompared K.taken K.faults asked table.now out.old out.new result }
    ensures later { K.faults out.old ≤ K.faults out.new }
{
    table.reveal();
    match comparison_of(alloc, search, table, asked) {
        Ok(compared) => end_compared(rule_named(asked.rule), &compared, out),
        Err(AllocError) => Status::NoMemory,
    }
}

/// What a rule chooses after all entries, beside a plan.
fn comparison_of<F: Fn(&PlanRequest<'_>) -> Result<AnyPlan, AllocError>>(
    alloc: Global,
    search: &F,
    table: &Table<'_>,
    asked: RulesWords,
) -> Result<Comparison, AllocError>
    requires searches { Searches (F.pre search.now) (F.post search.now) }
    requires within { AreRulesWithin asked }
    ensures { IfOk result (ComparesFor asked table.now.network table.now.rows table.now.penalty) }
{
    table.reveal();
    let (net, penalty) = (table.network(), table.penalty());
    let snapshot = table.copy()?;
    let request = PlanRequest {
        net,
        penalty,
        snapshot: &snapshot,
        asked: search_for(asked.solve, asked.budget),
        workers: asked.workers,
    };
    let plan = search(&request)?;
    compare(alloc, net, penalty, &snapshot, rule_named(asked.rule), plan)
}

fn rule_named(word: RuleWord) -> WaitRule
    ensures { result ≡ rule_named word }
{
    match word {
        RuleWord::Never => WaitRule::Never,
        RuleWord::Always => WaitRule::Always,
        RuleWord::AtMost(seconds) => WaitRule::AtMost(seconds),
    }
}

/// Prints a comparison.
fn end_compared<K: Sink>(rule: WaitRule, compared: &Comparison, out: &mut K) -> Status
    requires { bound_of compared.now.plan ≤ compared.now.cost }
    ensures ends { EndsAs K.taken K.faults out.old out.new (comparison_text rule compared.now) Status.Ok result }
    ensures later { K.faults out.old ≤ K.faults out.new }
{
    match print_comparison(rule, compared, out) {
        Ok(()) => Status::Ok,
        Err(WriteFault) => Status::WriteFault,
    }
}
