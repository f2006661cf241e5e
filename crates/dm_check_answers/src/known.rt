//! Claims whose truth is known before the answers are judged.
ghost use Rattle.std.specs.Prelude.{◌≡◌, List, true, Some, None, IfSome, slice_get, slice_index_or};
ghost use Rattle.dm_rows.specs.declared.messages.Entry.{Entry};
ghost use Rattle.dm_cert.specs.Answers.{Setting};
ghost use Rattle.dm_check_rows.specs.Claims.{Tells};
ghost use Rattle.dm_check_answers.specs.Claims.{IsKnown, IsTrueClaim};

use crate::claims::Answered;
use crate::matching::is_claim;
use dm_cert::Reply;
use dm_feed::Line;
use std::alloc::Global;

/// Claims in the order of a text, with the verdict on each that was judged, and the place of the next one.
pub struct Known {
    pub claims: Vec<Answered>,
    pub verdicts: Vec<Option<bool>>,
    pub next: usize,
}

impl Drop for Known {
    fn drop(self) {
        let Known {
            claims: _,
            verdicts: _,
            next: _,
        } = self;
    }
}

impl Known {
    /// No claim is known.
    pub(crate) fn none(alloc: Global) -> Known
        ensures { (s : Setting) (history : List Entry) → IsKnown s history result }
    {
        Known {
            claims: Vec::new(alloc),
            verdicts: Vec::new(alloc),
            next: 0,
        }
    }

    /// The verdict on what an answer claims, where that is the next claim and has its verdict. It goes on to the next claim then.
    pub(crate) fn verdict(&mut self, said: &Line, reply: &Reply) -> Option<bool>
        ensures tells { (s : Setting) (history : List Entry) → IsKnown s history self.old
            → IfSome result (Tells (IsTrueClaim s history said.now reply.now)) }
        ensures claims { self.new.claims ≡ self.old.claims }
        ensures verdicts { self.new.verdicts ≡ self.old.verdicts }
    {
        if !self.is_next(said, reply) {
            return None;
        }
        let verdict = self.next_verdict();
        self.next = self.next.saturating_add(1);
        verdict
    }

    /// Whether this is the next claim.
    fn is_next(&self, said: &Line, reply: &Reply) -> bool
        ensures { result ≡ true
            → slice_get self.now.claims.items self.now.next ≡ Some (record { said = said.now; reply = reply.now }) }
    {
        match self.claims.get(self.next) {
            Some(claim) => is_claim(claim, said, reply),
            None => false,
        }
    }

    /// The verdict on the next claim.
    fn next_verdict(&self) -> Option<bool>
        ensures { result ≡ slice_index_or self.now.verdicts.items self.now.next None }
    {
        if self.next < self.verdicts.len() {
            self.verdicts[self.next]
        } else {
            None
        }
    }
}
