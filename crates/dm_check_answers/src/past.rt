//! What the next answer of a feed needs of the items before it.
ghost use Rattle.std.specs.Prelude.{◌≡◌, ◌++◌, [], ◌∷◌, ◌<◌, List, true, false};
ghost use Rattle.dm_cert.specs.declared.limits.TheConstants.{PLANS};
ghost use Rattle.dm_feed.specs.declared.grammar.Line.{Line as Said};
ghost use Rattle.dm_cert.specs.declared.replies.LogItem.{LogItem};
ghost use Rattle.dm_cert.specs.declared.replies.LogItem.TheVariants.{Malformed, Answered};
ghost use Rattle.dm_cert.specs.Answers.{is_plan_reply, reply_with};
ghost use Rattle.dm_cert.specs.Logs.{kind_of_reply, Follows};
ghost use Rattle.dm_parts.specs.declared.kinds.AnyPlan.{AnyPlan as Given};
ghost use Rattle.dm_parts.specs.Kinds.{chosen_of};
ghost use Rattle.dm_check_rows.specs.Claims.{Tells};
ghost use Rattle.dm_check_answers.specs.Judging.{IsPast, line_before, number_before};

use dm_cert::Reply;
use dm_tree::Chosen;

/// The line and the entry number that were last, or 0, what an adoption takes of the latest plan, and how many plans there were.
pub struct Past {
    pub line: u32,
    pub number: u32,
    pub latest: Option<Chosen>,
    pub plans: usize,
}

impl Drop for Past {
    fn drop(self) {
        let Past {
            line: _,
            number: _,
            latest: _,
            plans: _,
        } = self;
    }
}

impl Past {
    /// No item stands before.
    pub fn new() -> Past
        ensures { IsPast [] result }
    {
        Past {
            line: 0,
            number: 0,
            latest: None,
            plans: 0,
        }
    }

    /// Whether a line comes behind those before.
    pub fn is_next_line(&self, line: u32) -> bool
        ensures { (before : List LogItem) → IsPast before self.now → Tells (line_before before < line) result }
    {
        self.line < line
    }

    /// Whether the entry number of an answer, where it has one, is in order.
    pub fn is_in_order(&self, reply: &Reply) -> bool
        ensures { (before : List LogItem) → IsPast before self.now
            → Tells (Follows (number_before before) (kind_of_reply reply.now)) result }
    {
        match reply {
            Reply::Ok(n) => self.number < *n,
            Reply::Read(n) => self.number <= *n,
            Reply::Old(n) => self.number <= *n,
            Reply::Time(n, _) => self.number <= *n,
            Reply::Cost(n, _) => self.number <= *n,
            Reply::Refused(at) => self.number <= at.entry,
            Reply::Planned(plan) => self.number <= plan.entry,
            Reply::Solved(plan) => self.number <= plan.entry,
            Reply::NoPlan | Reply::Plans | Reply::Range(_) => true,
        }
    }

    /// A malformed line comes behind.
    pub fn add_malformed(&mut self, line: u32)
        ensures { (before : List LogItem) → IsPast before self.old → IsPast (before ++ Malformed line ∷ []) self.new }
    {
        self.line = line;
    }

    /// An answer of one line comes behind.
    pub fn add_answer(&mut self, line: u32, reply: &Reply)
        requires { is_plan_reply reply.now ≡ false }
        ensures { (before : List LogItem) (said : Said) → IsPast before self.old
            → IsPast (before ++ Answered line said reply.now ∷ []) self.new }
    {
        self.line = line;
        match reply {
            Reply::Ok(n) => self.number = *n,
            Reply::Read(n) => self.number = *n,
            Reply::Old(n) => self.number = *n,
            Reply::Time(n, _) => self.number = *n,
            Reply::Cost(n, _) => self.number = *n,
            Reply::Refused(at) => self.number = at.entry,
            Reply::Planned(_) | Reply::Solved(_) => (),
            Reply::NoPlan | Reply::Plans | Reply::Range(_) => (),
        }
    }

    /// A plan of either kind comes behind, where there are not all plans yet.
    pub fn add_plan(&mut self, line: u32, plan: Chosen)
        requires { self.old.plans < PLANS }
        ensures { (before : List LogItem) (said : Said) (given : Given) → chosen_of given ≡ plan → IsPast before self.old
            → IsPast (before ++ Answered line said (reply_with given) ∷ []) self.new }
    {
        self.line = line;
        self.number = plan.entry;
        self.latest = Some(plan);
        self.plans += 1;
    }
}
