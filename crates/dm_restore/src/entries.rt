//! The entries that items name as accepted, by their numbers.
ghost use Rattle.std.specs.Prelude.{◌≡◌, ◌-◌, ◌<◌, ◌≤◌, ◌^◌, false, [], List, All, length, IfOk, OnOk, Some};
ghost use Rattle.std.specs.Option.{option_copied};
ghost use Rattle.dm_rows.specs.declared.messages.Entry.{Entry as AnEntry};
ghost use Rattle.dm_feed.specs.Lines.{IsSpelledLine};
ghost use Rattle.dm_cert.specs.Answers.{Setting};
ghost use Rattle.dm_cert.specs.Logs.{AreTrueAnswers, AreTrueLogs};
ghost use Rattle.dm_rows.specs.History.{IsLegal};
ghost use Rattle.dm_table_desk.specs.Tables.{setting_of};
ghost use Rattle.dm_restore.specs.Inside.Entering.{named_by, entry_in, choices_after, HasPut, KeepsEntries, Notes, Agrees, AreEntries, EntersAll, PostsNamed, NamesSorted, AreNamedSorted, AreSorted};
ghost use Rattle.dm_cert.specs.RunTexts.{IsSpelledItem, IsSpelledLog};

use dm_base::Items;
use dm_base::limits::ENTRIES;
use dm_cert::{FeedLog, LogItem, Reply};
use dm_desk::Desk;
use dm_feed::{Line, copy_of_message};
use dm_rows::{At, Decision, Entry, Message, Refusal};
use dm_table_desk::TableDesk;
use std::alloc::{AllocError, Global};

/// What an item names as entered.
#[derive(Drop)]
pub(crate) enum Named {
    Entry(Entry),

    /// Those of a plan's choices that are free after the entries before.
    Carry {
        feed: u32,
        line: u32,
        choices: Items<Decision>,
    },
}

/// The entries of logs, each at the place before its number. Where no item names an entry of this number there is none.
pub(crate) fn entries_of(alloc: Global, logs: &[FeedLog]) -> Result<Vec<Option<Named>>, AllocError>
    requires few { length logs.now < 2 ^ 32 }
    requires spelled { All IsSpelledLog logs.now }
    ensures entries { IfOk result (λ entries. (s : Setting) (history : List AnEntry) → IsLegal s.net s.start history
        → AreTrueLogs s history logs.now → AreEntries s.net s.start history entries.items) }
    ensures sorted { IfOk result (λ entries. AreNamedSorted entries.items) }
{
    let mut entries = Vec::new(alloc);
    for (place, log) in logs.iter().enumerate() {
        note_log(alloc, &mut entries, place as u32 + 1, log.items.as_slice())?;
    }
    Ok(entries)
}

/// Puts the entries of the log of a feed, which has this number, at their places.
fn note_log(
    alloc: Global,
    entries: &mut Vec<Option<Named>>,
    feed: u32,
    items: &[LogItem],
) -> Result<(), AllocError>
    requires { All IsSpelledItem items.now }
    ensures notes { OnOk result ((s : Setting) (history : List AnEntry) → length history ≤ ENTRIES
        → AreTrueAnswers s history feed [] items.now → Agrees s.net s.start history entries.old.items
        → Notes s.net s.start history items.now entries.old.items entries.new.items) }
    ensures sorted { OnOk result (AreNamedSorted entries.old.items → AreNamedSorted entries.new.items) }
{
    let mut latest = None;
    for item in items {
        note_item(alloc, entries, feed, latest, item)?;
        latest = later_choices(latest, item);
    }
    Ok(())
}

/// Puts the entry that an item names, if it does, at its place. Before it these were the choices of the feed's latest plan.
fn note_item(
    alloc: Global,
    entries: &mut Vec<Option<Named>>,
    feed: u32,
    latest: Option<&Items<Decision>>,
    item: &LogItem,
) -> Result<(), AllocError>
    requires { IsSpelledItem item.now }
    ensures { OnOk result (HasPut entries.old.items entries.new.items (entry_in feed (option_copied latest.entry) item.now)) }
{
    let Some((number, entry)) = entry_in(alloc, feed, latest, item)? else {
        return Ok(());
    };
    put_entry(entries, number, entry)
}

/// The choices of the latest plan behind an item, where before it these were those of the latest.
fn later_choices<'p>(
    latest: Option<&'p Items<Decision>>,
    item: &'p LogItem,
) -> Option<&'p Items<Decision>>
    ensures { option_copied result ≡ choices_after (option_copied latest.entry) item.now }
{
    match item {
        LogItem::Answered {
            reply: Reply::Planned(plan),
            ..
        } => Some(&plan.choices),
        LogItem::Answered {
            reply: Reply::Solved(solution),
            ..
        } => Some(&solution.choices),
        _ => latest,
    }
}

/// The entry that an item names, with its number. Before it these were the choices of the feed's latest plan. `Err` is want of
/// memory alone.
fn entry_in(
    alloc: Global,
    feed: u32,
    latest: Option<&Items<Decision>>,
    item: &LogItem,
) -> Result<Option<(u32, Named)>, AllocError>
    requires { IsSpelledItem item.now }
    ensures { IfOk result (λ found. found ≡ entry_in feed (option_copied latest.entry) item.now) }
{
    let LogItem::Answered {
        line,
        said,
        reply: Reply::Ok(number),
    } = item
    else {
        return Ok(None);
    };
    match named_by(alloc, feed, *line, latest, said)? {
        Some(named) => Ok(Some((*number, named))),
        None => Ok(None),
    }
}

/// What a line of a feed names as entered, where it is one that does.
fn named_by(
    alloc: Global,
    feed: u32,
    line: u32,
    latest: Option<&Items<Decision>>,
    said: &Line,
) -> Result<Option<Named>, AllocError>
    requires { IsSpelledLine said.now }
    ensures { IfOk result (λ named. named ≡ named_by feed line (option_copied latest.entry) said.now) }
{
    match (said, latest) {
        (Line::Say(message), _) => {
            let message = copy_of_message(message);
            Ok(Some(Named::Entry(Entry {
                feed,
                line,
                message,
            })))
        }
        (Line::Adopt, Some(choices)) => {
            let message = Message::Adopt(Items::from_slice(alloc, choices.as_slice())?);
            Ok(Some(Named::Entry(Entry {
                feed,
                line,
                message,
            })))
        }
        (Line::Carry, Some(choices)) => {
            let choices = Items::from_slice(alloc, choices.as_slice())?;
            Ok(Some(Named::Carry {
                feed,
                line,
                choices,
            }))
        }
        _ => Ok(None),
    }
}

/// Puts an entry at the place before its number. A number that no history has is passed over.
fn put_entry(entries: &mut Vec<Option<Named>>, number: u32, entry: Named) -> Result<(), AllocError>
    ensures { OnOk result (HasPut entries.old.items entries.new.items (Some (number, entry))) }
{
    if number == 0 || number > ENTRIES {
        return Ok(());
    }
    make_places(entries, number as usize)?;
    entries[number as usize - 1] = Some(entry);
    Ok(())
}

/// Makes places up to so many.
fn make_places(entries: &mut Vec<Option<Named>>, count: usize) -> Result<(), AllocError>
    ensures keeps { OnOk result (KeepsEntries entries.old.items entries.new.items) }
    ensures places { OnOk result (count ≤ length entries.new.items) }
{
    while entries.len() < count {
        entries.push(None)?;
    }
    Ok(())
}

/// Enters entries, up to the first that is not there or is refused. `Err` is want of memory alone.
pub(crate) fn enter_all(
    desk: &mut TableDesk<'_>,
    entries: Vec<Option<Named>>,
) -> Result<(), AllocError>
    ensures setting { setting_of desk.new.plans desk.new.table ≡ setting_of desk.old.plans desk.old.table }
    ensures enters { OnOk result (desk.old.table.history ≡ [] → (history : List AnEntry)
        → IsLegal desk.old.table.network desk.old.table.start history
        → AreEntries desk.old.table.network desk.old.table.start history entries.items
        → desk.new.table.history ≡ history) }
    ensures sorted { AreNamedSorted entries.items → AreSorted desk.old.table.history → AreSorted desk.new.table.history }
{
    for entry in entries {
        let Some(entry) = entry else {
            return Ok(());
        };
        if !enter(desk, entry)? {
            return Ok(());
        }
    }
    Ok(())
}

/// Enters what an item names, or answers that it is refused. `Err` is want of memory alone.
fn enter(desk: &mut TableDesk<'_>, entry: Named) -> Result<bool, AllocError>
    ensures setting { setting_of desk.new.plans desk.new.table ≡ setting_of desk.old.plans desk.old.table }
    ensures enters { IfOk result (EntersAll desk.old.table desk.new.table entry) }
    ensures sorted { NamesSorted entry → AreSorted desk.old.table.history → AreSorted desk.new.table.history }
{
    match post(desk, entry) {
        Ok(_) => Ok(true),
        Err(at) => {
            if wants_memory(&at.why) {
                return Err(AllocError);
            }
            Ok(false)
        }
    }
}

/// Enters what an item names at a desk, or says why it is refused.
fn post(desk: &mut TableDesk<'_>, entry: Named) -> Result<u32, At<Refusal>>
    ensures setting { setting_of desk.new.plans desk.new.table ≡ setting_of desk.old.plans desk.old.table }
    ensures posts { PostsNamed desk.old.table desk.new.table entry result }
{
    match entry {
        Named::Entry(entry) => desk.post(entry),
        Named::Carry {
            feed,
            line,
            choices,
        } => desk.carry(choices.as_slice(), feed, line),
    }
}

fn wants_memory(why: &Refusal) -> bool
    ensures { result ≡ false → why.now ≡ Refusal.OutOfMemory → ⊥ }
{
    match why {
        Refusal::OutOfMemory => true,
        _ => false,
    }
}
