//! Which entries are named as accepted by some log.
ghost use Rattle.std.specs.Prelude.{ℕ, ◌≡◌, ◌++◌, [], ◌∷◌, ◌<◌, List, length, true, false, slice_index_or};
ghost use Rattle.dm_rows.specs.declared.messages.Entry.{Entry as EntryValue};
ghost use Rattle.dm_feed.specs.declared.grammar.Line.{Line as Said};
ghost use Rattle.dm_cert.specs.declared.replies.LogItem.{LogItem};
ghost use Rattle.dm_cert.specs.declared.replies.LogItem.TheVariants.{Answered};
ghost use Rattle.dm_cert.specs.declared.replies.FeedLog.{FeedLog};
ghost use Rattle.dm_cert.specs.Logs.{all_items};
ghost use Rattle.dm_check_rows.specs.Claims.{Tells};
ghost use Rattle.dm_check.specs.FalseRecords.{TellsBoards};
ghost use Rattle.dm_check.specs.Judged.{AreFlagged, IsFlaggedAt, Judges};

use crate::faults::Fault;
use crate::told_lines::number_told;
use crate::verdicts::BadKind;
use dm_base::limits::BOARDS;
use dm_cert::Reply;
use dm_text::Lines;

/// Flags the entry that a reply names as accepted.
pub(crate) fn flag_named(named: &mut Vec<bool>, reply: &Reply)
    ensures flagged { (items : List LogItem) (line : ℕ) (said : Said) → AreFlagged items named.old.items
        → AreFlagged (items ++ Answered line said reply.now ∷ []) named.new.items }
    ensures size { length named.new.items ≡ length named.old.items }
{
    match reply {
        Reply::Ok(n) => flag(named, *n),
        Reply::Read(_) | Reply::Old(_) | Reply::Time(_, _) | Reply::Cost(_, _) => (),
        Reply::Refused(_) | Reply::NoPlan | Reply::Plans | Reply::Range(_) => (),
        Reply::Planned(_) | Reply::Solved(_) => (),
    }
}

/// Flags the entry of a number, from 1.
fn flag(named: &mut Vec<bool>, number: u32)
    ensures { IsFlaggedAt number named.old.items named.new.items }
{
    if 0 < number && number as usize <= named.len() {
        named[number as usize - 1] = true;
    }
}

/// How many notes follow the logs.
pub(crate) fn boards_told(lines: &mut Lines, named: &[bool]) -> Result<u128, Fault>
    ensures { (history : List EntryValue) (logs : List FeedLog) → length named.now ≡ length history → AreFlagged (all_items logs) named.now
        → Judges (TellsBoards history logs) (λ n. n) lines.old lines.new result }
{
    let line = lines.line();
    let number = match number_told(lines, "boards ") {
        Ok(number) => number,
        Err(fault) => return Err(fault),
    };
    if number > BOARDS as u128 {
        return Err(Fault {
            line,
            kind: BadKind::Form,
        });
    }
    if !are_all(named) {
        return Err(Fault {
            line,
            kind: BadKind::Unnamed,
        });
    }
    Ok(number)
}

/// Whether all are flagged.
pub(crate) fn are_all(named: &[bool]) -> bool
    ensures { Tells ((n : ℕ) → n < length named.now → slice_index_or named.now n false ≡ true) result }
{
    named.iter().all(|flag| *flag)
}
