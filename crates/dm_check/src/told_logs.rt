//! The logs of all feeds.
ghost use Rattle.std.specs.Prelude.{◌≡◌, ◌+◌, ◌<◌, ◌≤◌, List, [], length};
ghost use Rattle.dm_base.specs.declared.limits.TheConstants.{FEEDS};
ghost use Rattle.dm_cert.specs.declared.replies.FeedLog.{FeedLog};
ghost use Rattle.dm_records.specs.RunLines.{IsOpeningLine};
ghost use Rattle.dm_check.specs.declared.verdicts.BadKind.TheVariants.{Form};
ghost use Rattle.dm_check.specs.FalseRecords.{Rules};
ghost use Rattle.dm_check.specs.Inside.Sound.{IsSound};
ghost use Rattle.dm_check.specs.Judged.{AreFlagged, Judges, LogOn, LogsOn};

use crate::faults::{Fault, Stop};
use crate::told_items::Logs;
use crate::told_lines::{opening_told, stop_told};
use crate::verdicts::BadKind;
use dm_text::Lines;

/// How many items the log of this feed has.
fn feed_told(lines: &mut Lines, feed: u32) -> Result<u128, Fault>
    ensures { Judges (Rules IsOpeningLine (λ o. o.feed ≡ feed) Form (λ o. o.items)) (λ n. n) lines.old lines.new result }
{
    let line = lines.line();
    let opening = match opening_told(lines) {
        Ok(opening) => opening,
        Err(fault) => return Err(fault),
    };
    if opening.feed != feed as u128 {
        return Err(Fault {
            line,
            kind: BadKind::Form,
        });
    }
    Ok(opening.items)
}

impl<'j> Logs<'j> {
    /// The log of this feed, and how many plans there are in it.
    fn next_log(&mut self, lines: &mut Lines, feed: u32) -> Result<usize, Stop>
        requires { IsSound self.old.replay.journal.setting self.old.replay.journal.history }
        ensures tells { (before : List FeedLog) → length before + 1 ≡ feed
            → LogOn self.old.replay.journal.setting self.old.replay.journal.history before lines.old lines.new
            self.old.named.items self.new.named.items result }
        ensures same { self.new.replay.journal ≡ self.old.replay.journal }
    {
        let items = match feed_told(lines, feed) {
            Ok(items) => items,
            Err(fault) => return Err(Stop::Fault(fault)),
        };
        let plans = match self.all_items(lines, feed, items) {
            Ok(plans) => plans,
            Err(stop) => return Err(stop),
        };
        match stop_told(lines) {
            Ok(_stop) => Ok(plans),
            Err(fault) => Err(Stop::Fault(fault)),
        }
    }

    /// The logs of so many feeds, and how many plans there are in them.
    pub(crate) fn all_logs(&mut self, lines: &mut Lines, feeds: usize) -> Result<usize, Stop>
        requires few { feeds ≤ FEEDS }
        requires sound { IsSound self.old.replay.journal.setting self.old.replay.journal.history }
        requires none { AreFlagged [] self.old.named.items }
        ensures tells { LogsOn self.old.replay.journal.setting self.old.replay.journal.history feeds lines.old lines.new
            self.old.named.items self.new.named.items result }
        ensures same { self.new.replay.journal ≡ self.old.replay.journal }
    {
        let mut plans = 0;
        for place in 0..feeds {
            match self.next_log(lines, place as u32 + 1) {
                Ok(more) => plans += more,
                Err(stop) => return Err(stop),
            }
        }
        Ok(plans)
    }
}
