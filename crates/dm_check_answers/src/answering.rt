//! Answers of one line.
ghost use Rattle.std.specs.Prelude.{◌≡◌, ℕ, false, List, IfOk};
ghost use Rattle.dm_feed.specs.Lines.{IsSpelledLine};
ghost use Rattle.dm_feed.specs.declared.grammar.Line.TheVariants.{Read as AskRead};
ghost use Rattle.dm_cert.specs.declared.replies.LogItem.{LogItem};
ghost use Rattle.dm_cert.specs.Answers.{IsTrueReply, is_plan_reply};
ghost use Rattle.dm_check_rows.specs.Claims.{Tells};
ghost use Rattle.dm_check_answers.specs.Judging.{IsPast, setting_of, history_of};

use crate::adopting::is_true_of_adopt;
use crate::asked::Asked;
use crate::journal::Journal;
use crate::matching::is_entered;
use crate::planning::is_true_of_plan;
use crate::replay::Replay;
use crate::timing::is_unknown_at;
use dm_cert::Reply;
use dm_feed::Line;
use std::alloc::AllocError;

impl<'a> Replay<'a> {
    /// Whether an answer of one line to a feed's line is true, behind what stands before it in the feed's log. `Err` is want of
    /// memory alone.
    pub fn is_true_answer(&mut self, asked: &Asked<'_>, reply: &Reply) -> Result<bool, AllocError>
        requires said { IsSpelledLine asked.now.said.now }
        requires one_line { is_plan_reply reply.now ≡ false }
        ensures tells { (before : List LogItem) → IsPast before asked.now.past.now
            → IfOk result (Tells (IsTrueReply self.old.journal.setting self.old.journal.history asked.now.feed before asked.now.line
            asked.now.said.now reply.now)) }
        ensures same { self.new.journal ≡ self.old.journal }
    {
        match asked.said {
            Line::Say(message) => match reply {
                Reply::Ok(n) => {
                    let entries = self.journal.entries;
                    Ok(is_entered(entries, *n, asked.feed, asked.line, message))
                }
                Reply::Refused(_) => self.is_true_claim(asked.said, reply),
                _ => Ok(false),
            },
            Line::Time(event) => match reply {
                Reply::Time(_, _) => self.is_true_claim(asked.said, reply),
                Reply::Refused(at) => {
                    Ok(is_unknown_at(&self.journal, at.entry, *event, &at.why))
                }
                _ => Ok(false),
            },
            Line::CostNow => match reply {
                Reply::Cost(_, _) => self.is_true_claim(asked.said, reply),
                _ => Ok(false),
            },
            Line::Read => Ok(is_true_of_read(&self.journal, reply)),
            Line::Plan(budget) | Line::Solve(budget) => {
                Ok(is_true_of_plan(&self.journal, asked, *budget, reply))
            }
            Line::Adopt => Ok(is_true_of_adopt(&self.journal, asked, reply)),
            Line::Carry => self.is_true_of_carry(asked, reply),
        }
    }
}

/// Whether the answer to the question for the number of entries is true.
fn is_true_of_read(journal: &Journal<'_>, reply: &Reply) -> bool
    ensures { (feed line : ℕ) (before : List LogItem)
        → Tells (IsTrueReply (setting_of journal.now.setting) (history_of journal.now) feed before line AskRead
        reply.now) result }
{
    match reply {
        Reply::Read(n) => *n as usize <= journal.entries.len(),
        _ => false,
    }
}
