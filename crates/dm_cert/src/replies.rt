//! The answers to feeds, and their logs.

ghost use Rattle.std.specs.Prelude.{◌≡◌};
ghost use Rattle.dm_cert.specs.Answers.{reply_with};

use dm_base::{Cost, Items, Secs};
use dm_feed::{FeedStop, Line};
use dm_parts::{AnyPlan, PlanByParts};
use dm_rows::{At, Refusal};
use dm_tree::Plan;

/// The answer to a line. An entry number is how many entries the history had.
#[derive(Drop)]
pub enum Reply {
    /// The message, or what was adopted or carried of a plan, is the entry of this number, from 1.
    Ok(u32),

    /// A message, a question or an adoption is refused at so many entries.
    Refused(At<Refusal>),

    /// The time of the event at so many entries, in seconds.
    Time(u32, Secs),

    /// The cost at so many entries, in thousandths of passenger seconds.
    Cost(u32, Cost),

    /// So many entries.
    Read(u32),

    /// A plan for the rows at the entry that it names.
    Planned(Plan),

    /// A plan by parts for the rows at the entry that it names.
    Solved(PlanByParts),

    /// At so many entries the latest plan, of either kind, is for fewer entries.
    Old(u32),

    /// There is no plan to adopt or to carry yet.
    NoPlan,

    /// The feed has had all its plans.
    Plans,

    /// The budget that was asked for is out of range.
    Range(u64),
}

impl Reply {
    /// The reply that gives a plan.
    pub fn with(plan: AnyPlan) -> Reply
        ensures { result ≡ reply_with plan }
    {
        match plan {
            AnyPlan::Whole(plan) => Reply::Planned(plan),
            AnyPlan::ByParts(plan) => Reply::Solved(plan),
        }
    }
}

/// What a log holds of one line. Lines are numbered from 1.
#[derive(Drop)]
pub enum LogItem {
    /// The line is in no form.
    Malformed { line: u32 },

    Answered { line: u32, said: Line, reply: Reply },
}

/// What one feed was answered, line by line, and why it was read no further.
#[derive(Drop)]
pub struct FeedLog {
    pub items: Items<LogItem>,
    pub stop: FeedStop,
}
