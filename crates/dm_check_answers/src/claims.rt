//! What answers claim of the rows at an entry.
ghost use Rattle.std.specs.Prelude.{◌≡◌, IfOk, IfSome};
ghost use Rattle.dm_feed.specs.Lines.{IsSpelledLine};
ghost use Rattle.dm_check_answers.specs.Claims.{IsSpelledAnswer, claimed_at};

use dm_cert::Reply;
use dm_check_rows::copy_of_refusal;
use dm_feed::{Line, copy_of_line};
use dm_rows::At;
use std::alloc::{AllocError, Global};

/// A line of a feed, and an answer to it.
pub struct Answered {
    pub said: Line,
    pub reply: Reply,
}

impl Drop for Answered {
    fn drop(self) {
        let Answered { said: _, reply: _ } = self;
    }
}

impl Answered {
    /// After how many entries the answer claims something of the rows: the time of an event, the cost, or that a message is
    /// refused. None where it claims nothing of them.
    pub fn claims_at(&self) -> Option<u32>
        ensures { result ≡ claimed_at self.now.said self.now.reply }
    {
        claims_at(&self.said, &self.reply)
    }

    /// The answer once more, where it claims something of the rows. `Err` is want of memory alone.
    pub fn copied(alloc: Global, said: &Line, reply: &Reply) -> Result<Option<Answered>, AllocError>
        requires { IsSpelledLine said.now }
        ensures { IfOk result (λ found. IfSome found IsSpelledAnswer) }
    {
        if claims_at(said, reply).is_none() {
            return Ok(None);
        }
        let reply = match copy_of(alloc, reply) {
            Ok(Some(reply)) => reply,
            Ok(None) => return Ok(None),
            Err(AllocError) => return Err(AllocError),
        };
        Ok(Some(Answered {
            said: copy_of_line(said),
            reply,
        }))
    }
}

/// After how many entries the reply to a line claims something of the rows.
fn claims_at(said: &Line, reply: &Reply) -> Option<u32>
    ensures { result ≡ claimed_at said.now reply.now }
{
    match said {
        Line::Say(_) => match reply {
            Reply::Refused(at) => Some(at.entry),
            _ => None,
        },
        Line::Time(_) => match reply {
            Reply::Time(number, _) => Some(*number),
            _ => None,
        },
        Line::CostNow => match reply {
            Reply::Cost(number, _) => Some(*number),
            _ => None,
        },
        Line::Plan(_) | Line::Solve(_) | Line::Adopt | Line::Carry | Line::Read => None,
    }
}

/// The reply once more, where it tells a time, a cost or a refusal.
fn copy_of(alloc: Global, reply: &Reply) -> Result<Option<Reply>, AllocError>
    ensures { IfOk result (λ found. IfSome found (λ copy. copy ≡ reply.now)) }
{
    match reply {
        Reply::Time(entry, time) => Ok(Some(Reply::Time(*entry, *time))),
        Reply::Cost(entry, cost) => Ok(Some(Reply::Cost(*entry, *cost))),
        Reply::Refused(at) => match copy_of_refusal(alloc, &at.why) {
            Ok(why) => Ok(Some(Reply::Refused(At {
                entry: at.entry,
                why,
            }))),
            Err(AllocError) => Err(AllocError),
        },
        _ => Ok(None),
    }
}
