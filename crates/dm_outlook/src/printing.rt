//! A plan of a window in print.
ghost use Rattle.std.specs.Prelude.{length};
ghost use Rattle.dm_outside.specs.Printing.{Prints, Puts};
ghost use Rattle.std.specs.List.{flat_map};
ghost use Rattle.dm_feed.specs.Lines.{spelling_of_decision};
ghost use Rattle.dm_outlook.specs.Texts.{barred_text, carried_text, cycle_text, end_text, held_text, kept_text, minimal_text, outlook_text, rebased_text, thinned_text, plan_text, told_text, worth_text};

use crate::outlook::{Carried, Outlook};
use dm_base::ActId;
use dm_cert::{put_choices, put_number, put_numbers, put_plan, put_solved};
use dm_outside::{Page, Sink, WriteFault};
use dm_parts::AnyPlan;
use dm_report::{put_ids, put_labelled};
use dm_rows::Decision;
use dm_stretch::{KeptChoice, Minimal, Rebased, Window, Worth};

/// Prints a plan of the window, with how many choices were held in it, if some were, and what becomes of it at the last entry, which
/// is of this number. A write fault comes only where a write failed.
pub fn print_outlook<K: Sink>(
    window: &Window,
    last: u32,
    outlook: &Outlook,
    sink: &mut K,
) -> Result<(), WriteFault>
    ensures { Puts K.taken K.faults sink.old sink.new result (outlook_text window.now last outlook.now) }
{
    let mut page = Page::new();
    let Ok(()) = put_outlook(sink, &mut page, window, last, outlook) else {
        return Err(WriteFault);
    };
    page.finish(sink)
}

fn put_outlook<K: Sink>(
    sink: &mut K,
    page: &mut Page,
    window: &Window,
    last: u32,
    outlook: &Outlook,
) -> Result<(), WriteFault>
    ensures { Prints K.taken K.faults sink.old sink.new page.old page.new result (outlook_text window.now last outlook.now) }
{
    let numbers = [
        ("window ", window.from as u128),
        (" ", window.to as u128),
        (" entry ", outlook.entry as u128),
    ];
    let Ok(()) = put_labelled(sink, page, &numbers, "\n") else {
        return Err(WriteFault);
    };
    let Ok(()) = put_held(sink, page, window) else {
        return Err(WriteFault);
    };
    let Ok(()) = put_planned(sink, page, &outlook.plan) else {
        return Err(WriteFault);
    };
    put_told(sink, page, last, outlook)
}

fn put_planned<K: Sink>(sink: &mut K, page: &mut Page, plan: &AnyPlan) -> Result<(), WriteFault>
    ensures { Prints K.taken K.faults sink.old sink.new page.old page.new result (plan_text plan.now) }
{
    match plan {
        AnyPlan::Whole(plan) => put_plan(sink, page, plan),
        AnyPlan::ByParts(plan) => put_solved(sink, page, plan),
    }
}

// Prints what is told of a plan behind it.
fn put_told<K: Sink>(
    sink: &mut K,
    page: &mut Page,
    last: u32,
    outlook: &Outlook,
) -> Result<(), WriteFault>
    ensures { Prints K.taken K.faults sink.old sink.new page.old page.new result (told_text last outlook.now) }
{
    let Ok(()) = put_minimal(sink, page, &outlook.minimal) else {
        return Err(WriteFault);
    };
    put_carried(sink, page, last, &outlook.carried)
}

// Prints which choices are kept where others are given back, if that is told.
fn put_minimal<K: Sink>(
    sink: &mut K,
    page: &mut Page,
    minimal: &Option<Minimal>,
) -> Result<(), WriteFault>
    ensures { Prints K.taken K.faults sink.old sink.new page.old page.new result (minimal_text minimal.now) }
{
    match minimal {
        None => page.put(sink, &[]),
        Some(minimal) => put_thinned(sink, page, minimal),
    }
}

fn put_thinned<K: Sink>(sink: &mut K, page: &mut Page, minimal: &Minimal) -> Result<(), WriteFault>
    ensures { Prints K.taken K.faults sink.old sink.new page.old page.new result (thinned_text minimal.now.cost minimal.now.choices) }
{
    let choices = minimal.choices.as_slice();
    let numbers = [
        ("minimal cost ", minimal.cost),
        (" choices ", choices.len() as u128),
    ];
    let Ok(()) = put_labelled(sink, page, &numbers, "\n") else {
        return Err(WriteFault);
    };
    put_kept_choices(sink, page, choices)
}

// Prints choices that are kept, a line each.
fn put_kept_choices<K: Sink>(
    sink: &mut K,
    page: &mut Page,
    choices: &[KeptChoice],
) -> Result<(), WriteFault>
    ensures { Prints K.taken K.faults sink.old sink.new page.old page.new result (flat_map kept_text choices.now) }
{
    for kept in choices {
        let Ok(()) = put_kept(sink, page, *kept) else {
            return Err(WriteFault);
        };
    }
    Ok(())
}

fn put_kept<K: Sink>(sink: &mut K, page: &mut Page, kept: KeptChoice) -> Result<(), WriteFault>
    ensures { Prints K.taken K.faults sink.old sink.new page.old page.new result (kept_text kept) }
{
    let Ok(()) = page.put_bytes(sink, b"choice") else {
        return Err(WriteFault);
    };
    let Ok(()) = put_decision(sink, page, kept.decision) else {
        return Err(WriteFault);
    };
    put_worth(sink, page, kept.worth)
}

fn put_decision<K: Sink>(
    sink: &mut K,
    page: &mut Page,
    decision: Decision,
) -> Result<(), WriteFault>
    ensures { Prints K.taken K.faults sink.old sink.new page.old page.new result (spelling_of_decision decision) }
{
    match decision {
        Decision::Keep(act) => page.put_number(sink, " keep ", act.0 as u128),
        Decision::Drop(act) => page.put_number(sink, " drop ", act.0 as u128),
        Decision::First(first, second) => {
            page.put_pair(sink, " first ", (first.0 as u128, second.0 as u128))
        }
    }
}

#[tactic(auto, unfolding(crate::specs::Texts::worth_text))]
fn put_worth<K: Sink>(sink: &mut K, page: &mut Page, worth: Worth) -> Result<(), WriteFault>
    ensures { Prints K.taken K.faults sink.old sink.new page.old page.new result (worth_text worth) }
{
    match worth {
        Worth::Needed => page.put_bytes(sink, b" needed\n"),
        Worth::Saves(more) => put_number(sink, page, " saves ", more),
    }
}

// Prints how many choices of a window are held, if some are.
fn put_held<K: Sink>(sink: &mut K, page: &mut Page, window: &Window) -> Result<(), WriteFault>
    ensures { Prints K.taken K.faults sink.old sink.new page.old page.new result (held_text (length window.now.held)) }
{
    put_many(sink, page, window.held.as_slice().len())
}

#[tactic(auto, unfolding(crate::specs::Texts::held_line))]
fn put_many<K: Sink>(sink: &mut K, page: &mut Page, many: usize) -> Result<(), WriteFault>
    ensures { Prints K.taken K.faults sink.old sink.new page.old page.new result (held_text many) }
{
    if many == 0 {
        page.put(sink, &[])
    } else {
        put_number(sink, page, "held ", many as u128)
    }
}

// Prints what becomes of a plan at the last entry, if that is told.
fn put_carried<K: Sink>(
    sink: &mut K,
    page: &mut Page,
    last: u32,
    carried: &Option<Carried>,
) -> Result<(), WriteFault>
    ensures { Prints K.taken K.faults sink.old sink.new page.old page.new result (carried_text last carried.now) }
{
    match carried {
        None => page.put(sink, &[]),
        Some(carried) => {
            let Ok(()) = page.put_number(sink, "rebased ", last as u128) else {
                return Err(WriteFault);
            };
            put_end(sink, page, carried)
        }
    }
}

fn put_end<K: Sink>(sink: &mut K, page: &mut Page, carried: &Carried) -> Result<(), WriteFault>
    ensures { Prints K.taken K.faults sink.old sink.new page.old page.new result (end_text carried.now) }
{
    match carried {
        Carried::Rebased(rebased) => put_rebased(sink, page, rebased),
        Carried::NotFree(decision) => put_barred(sink, page, *decision),
        Carried::Cycle(ids) => put_cycle(sink, page, ids.as_slice()),
    }
}

fn put_rebased<K: Sink>(sink: &mut K, page: &mut Page, rebased: &Rebased) -> Result<(), WriteFault>
    ensures { Prints K.taken K.faults sink.old sink.new page.old page.new result (rebased_text rebased.now.cost rebased.now.choices) }
{
    let choices = rebased.choices.as_slice();
    let numbers = [
        (" cost ", rebased.cost),
        (" choices ", choices.len() as u128),
    ];
    let Ok(()) = put_labelled(sink, page, &numbers, "\n") else {
        return Err(WriteFault);
    };
    put_choices(sink, page, choices)
}

// Prints the first choice that is not free any more.
#[tactic(auto, unfolding(crate::specs::Texts::barred_text))]
fn put_barred<K: Sink>(sink: &mut K, page: &mut Page, decision: Decision) -> Result<(), WriteFault>
    ensures { Prints K.taken K.faults sink.old sink.new page.old page.new result (barred_text decision) }
{
    match decision {
        Decision::Keep(act) => put_number(sink, page, " refused not-free keep ", act.0 as u128),
        Decision::Drop(act) => put_number(sink, page, " refused not-free drop ", act.0 as u128),
        Decision::First(first, second) => {
            put_numbers(
                sink,
                page,
                " refused not-free first ",
                first.0 as u128,
                second.0 as u128,
            )
        }
    }
}

fn put_cycle<K: Sink>(sink: &mut K, page: &mut Page, ids: &[ActId]) -> Result<(), WriteFault>
    ensures { Prints K.taken K.faults sink.old sink.new page.old page.new result (cycle_text ids.now) }
{
    let Ok(()) = page.put_bytes(sink, b" refused cycle") else {
        return Err(WriteFault);
    };
    let Ok(()) = put_ids(sink, page, ids) else {
        return Err(WriteFault);
    };
    page.put_bytes(sink, b"\n")
}
