//! A comparison in print.
ghost use Rattle.std.specs.Prelude.{◌≤◌, codes};
ghost use Rattle.dm_outside.specs.Printing.{Prints, Puts};
ghost use Rattle.dm_waitrule.specs.Kinds.{bound_of};
ghost use Rattle.dm_ruling.specs.Texts.{comparison_text, compared_text, cost_text, gap_line, gap_text, rule_text};

use dm_base::Cost;
use dm_cert::put_choices;
use dm_outside::{Page, Piece, Sink, WriteFault};
use dm_parts::AnyPlan;
use dm_report::put_labelled;
use dm_tree::Mark;
use dm_waitrule::{Comparison, WaitRule};

/// Prints a rule with what it chooses and costs, beside a plan whose bound that is not below. A write fault comes only where a
/// write failed.
pub fn print_comparison<K: Sink>(
    rule: WaitRule,
    compared: &Comparison,
    sink: &mut K,
) -> Result<(), WriteFault>
    requires { bound_of compared.now.plan ≤ compared.now.cost }
    ensures { Puts K.taken K.faults sink.old sink.new result (comparison_text rule compared.now) }
{
    let mut page = Page::new();
    let Ok(()) = put_rule(sink, &mut page, rule) else {
        return Err(WriteFault);
    };
    let Ok(()) = put_compared(sink, &mut page, compared) else {
        return Err(WriteFault);
    };
    page.finish(sink)
}

#[tactic(auto, unfolding(crate::specs::Texts::rule_text))]
fn put_rule<K: Sink>(sink: &mut K, page: &mut Page, rule: WaitRule) -> Result<(), WriteFault>
    ensures { Prints K.taken K.faults sink.old sink.new page.old page.new result (rule_text rule) }
{
    let word = match rule {
        WaitRule::Never => Piece::Text("never"),
        WaitRule::Always => Piece::Text("always"),
        WaitRule::AtMost(seconds) => Piece::Number(seconds as u128),
    };
    page.put(sink, &[Piece::Text("rule "), word])
}

// Prints all that is told beside the rule.
fn put_compared<K: Sink>(
    sink: &mut K,
    page: &mut Page,
    compared: &Comparison,
) -> Result<(), WriteFault>
    requires { bound_of compared.now.plan ≤ compared.now.cost }
    ensures { Prints K.taken K.faults sink.old sink.new page.old page.new result (compared_text compared.now) }
{
    let Ok(()) = put_cost(sink, page, compared) else {
        return Err(WriteFault);
    };
    let Ok(()) = put_choices(sink, page, compared.choices.as_slice()) else {
        return Err(WriteFault);
    };
    put_gap(sink, page, compared.cost, &compared.plan)
}

// Prints what the rows cost by the rule, and how many choices follow.
#[tactic(auto, unfolding(crate::specs::Texts::cost_text))]
fn put_cost<K: Sink>(sink: &mut K, page: &mut Page, compared: &Comparison) -> Result<(), WriteFault>
    ensures { Prints K.taken K.faults sink.old sink.new page.old page.new result (cost_text compared.now) }
{
    let numbers = [
        (" cost ", compared.cost),
        (" choices ", compared.choices.as_slice().len() as u128),
    ];
    put_labelled(sink, page, &numbers, "\n")
}

// Prints the plan, and by how much the rule's cost is above its bound.
fn put_gap<K: Sink>(
    sink: &mut K,
    page: &mut Page,
    cost: Cost,
    plan: &AnyPlan,
) -> Result<(), WriteFault>
    requires { bound_of plan.now ≤ cost }
    ensures { Prints K.taken K.faults sink.old sink.new page.old page.new result (gap_text cost plan.now) }
{
    match plan {
        AnyPlan::Whole(plan) => {
            let above = cost - plan.bound;
            put_plan(sink, page, plan.mark, plan.cost, plan.bound, above)
        }
        AnyPlan::ByParts(plan) => {
            let above = cost - plan.bound;
            put_solved(sink, page, plan.mark, plan.cost, plan.bound, above)
        }
    }
}

#[tactic(auto, unfolding(crate::specs::Texts::gap_line))]
fn put_plan<K: Sink>(
    sink: &mut K,
    page: &mut Page,
    mark: Mark,
    cost: Cost,
    bound: Cost,
    above: Cost,
) -> Result<(), WriteFault>
    ensures { Prints K.taken K.faults sink.old sink.new page.old page.new result (gap_line (codes "plan ") mark cost bound above) }
{
    let word = match mark {
        Mark::Optimal => "plan optimal cost ",
        Mark::Open => "plan open cost ",
    };
    let numbers = [(word, cost), (" bound ", bound), ("\ngap ", above)];
    put_labelled(sink, page, &numbers, "\n")
}

#[tactic(auto, unfolding(crate::specs::Texts::gap_line))]
fn put_solved<K: Sink>(
    sink: &mut K,
    page: &mut Page,
    mark: Mark,
    cost: Cost,
    bound: Cost,
    above: Cost,
) -> Result<(), WriteFault>
    ensures { Prints K.taken K.faults sink.old sink.new page.old page.new result (gap_line (codes "solved ") mark cost bound above) }
{
    let word = match mark {
        Mark::Optimal => "solved optimal cost ",
        Mark::Open => "solved open cost ",
    };
    let numbers = [(word, cost), (" bound ", bound), ("\ngap ", above)];
    put_labelled(sink, page, &numbers, "\n")
}
