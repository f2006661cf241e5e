//! What lines say.

use dm_base::EventId;
use dm_rows::Message;

/// What a line asks. No line says an adopted list: that is what `Adopt` and `Carry` come to.
/// Of a pair to lock or unlock the smaller id stands first.
#[derive(PartialEq, Eq, Debug, Drop)]
pub enum Line {
    /// A message to enter.
    Say(Message),

    /// The time of an event.
    Time(EventId),

    /// The cost at present.
    CostNow,

    /// A plan with a search tree of at most so many nodes.
    Plan(u64),

    /// A plan by parts whose parts have at most so many nodes together.
    Solve(u64),

    /// The latest plan of either kind is to be adopted.
    Adopt,

    /// The choices of the latest plan that are still free are to be entered.
    Carry,

    /// The number of entries at present.
    Read,
}

/// What is heard in the bytes of a line.
#[derive(PartialEq, Eq, Debug, Drop)]
pub enum Heard {
    /// A blank line or a comment, which asks nothing.
    Blank,

    Line(Line),

    /// The bytes are in no form.
    Malformed,
}
