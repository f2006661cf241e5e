//! Answers to `carry`.
ghost use Rattle.std.specs.Prelude.{◌≡◌, ◌≤◌, ◌<◌, List, length, IfOk, MatchOption};
ghost use Rattle.dm_feed.specs.declared.grammar.Line.TheVariants.{Carry as AskCarry};
ghost use Rattle.dm_cert.specs.declared.replies.LogItem.{LogItem};
ghost use Rattle.dm_cert.specs.Answers.{IsCarried, IsRefused, IsTrueReply, carried};
ghost use Rattle.dm_check_rows.specs.Claims.{Tells};
ghost use Rattle.dm_check_answers.specs.Judging.{IsPast};

use crate::asked::Asked;
use crate::matching::is_entered;
use crate::replay::Replay;
use dm_cert::Reply;
use dm_rows::{Decision, Message, Refusal, free_among};
use std::alloc::AllocError;

impl<'a> Replay<'a> {
    /// Whether an answer to `carry` is true, behind what stands before it in the feed's log. `Err` is want of memory alone.
    pub(crate) fn is_true_of_carry(
        &mut self,
        asked: &Asked<'_>,
        reply: &Reply,
    ) -> Result<bool, AllocError>
        ensures tells { (before : List LogItem) → IsPast before asked.now.past.now
            → IfOk result (Tells (IsTrueReply self.old.journal.setting self.old.journal.history asked.now.feed before asked.now.line
            AskCarry reply.now)) }
        ensures same { self.new.journal ≡ self.old.journal }
    {
        let Some(plan) = &asked.past.latest else {
            return Ok(matches!(reply, Reply::NoPlan));
        };
        let choices = plan.choices.as_slice();
        match reply {
            Reply::Ok(number) => self.is_carried(asked.feed, asked.line, choices, *number),
            Reply::Refused(at) => self.is_carry_refused(choices, at.entry, &at.why),
            _ => Ok(false),
        }
    }

    /// Whether the entry of this number enters those of the choices that are free after the entries before it.
    fn is_carried(
        &mut self,
        feed: u32,
        line: u32,
        choices: &[Decision],
        number: u32,
    ) -> Result<bool, AllocError>
        ensures tells { IfOk result (Tells (IsCarried self.old.journal.setting self.old.journal.history feed line number choices.now)) }
        ensures same { self.new.journal ≡ self.old.journal }
    {
        if number == 0 {
            return Ok(false);
        }
        match self.carried_at(number - 1, choices) {
            Ok(Some(message)) => {
                let entries = self.journal.entries;
                Ok(is_entered(entries, number, feed, line, &message))
            }
            Ok(None) => Ok(false),
            Err(AllocError) => Err(AllocError),
        }
    }

    /// Whether the rows after so many entries refuse to take those of the choices that are free then, for this reason.
    fn is_carry_refused(
        &mut self,
        choices: &[Decision],
        number: u32,
        why: &Refusal,
    ) -> Result<bool, AllocError>
        ensures tells { IfOk result (Tells (IsRefused self.old.journal.setting self.old.journal.history number
            (carried self.old.journal.setting self.old.journal.history number choices.now) why.now)) }
        ensures same { self.new.journal ≡ self.old.journal }
    {
        match self.carried_at(number, choices) {
            Ok(Some(message)) => self.is_refused_at(number, &message, why),
            Ok(None) => Ok(false),
            Err(AllocError) => Err(AllocError),
        }
    }

    /// What choices come to after so many entries, where there are so many.
    fn carried_at(
        &mut self,
        number: u32,
        choices: &[Decision],
    ) -> Result<Option<Message>, AllocError>
        ensures carried { IfOk result (λ found. MatchOption found (length self.old.journal.history < number)
            (λ message. (number ≤ length self.old.journal.history)
            × (message ≡ carried self.old.journal.setting self.old.journal.history number choices.now))) }
        ensures same { self.new.journal ≡ self.old.journal }
    {
        match self.reach(number) {
            Ok(true) => match self.carried_here(choices) {
                Ok(message) => Ok(Some(message)),
                Err(AllocError) => Err(AllocError),
            },
            Ok(false) => Ok(None),
            Err(AllocError) => Err(AllocError),
        }
    }

    /// What choices come to where it stands.
    fn carried_here(&self, choices: &[Decision]) -> Result<Message, AllocError>
        ensures carried { IfOk result (λ message. message ≡ carried self.now.journal.setting self.now.journal.history self.now.entry
            choices.now) }
        ensures within { self.now.entry ≤ length self.now.journal.history }
    {
        let setting = self.journal.setting;
        let Ok(room) = Vec::with_capacity(setting.alloc, choices.len()) else {
            return Err(AllocError);
        };
        let free = free_among(setting.net, self.checked.rows(), choices, room);
        Ok(Message::Adopt(free))
    }
}
