//! What is told of a text.
ghost use Rattle.std.specs.Prelude.{◌≡◌};

/// What is wrong with a record.
#[derive(Clone, Copy, PartialEq, Eq)]
pub enum BadKind {
    /// A line has not the form that must stand there.
    Form,

    /// The text ends before a line is whole with its LF.
    Truncated,

    /// An entry is out of its turn, of no feed or line, or refused by the rows after those before it.
    Entry,

    /// A log item is not true, or out of order.
    Reply,

    /// A plan is not true, or its log item is not.
    Plan,

    /// An entry is named by no log.
    Unnamed,

    /// A board note names no board or stop, a board twice, or an entry out of order.
    Board,

    /// A time is not that of the next event in the least timetable.
    Time,

    /// The final cost is not that of the rows.
    Cost,
}

impl BadKind {
    ghost use Rattle.dm_check.specs.KindWords.{kind_word};

    /// What is wrong, in a word.
    pub fn word(self) -> &'static str
        ensures { result.now ≡ kind_word self }
    {
        match self {
            BadKind::Form => "form",
            BadKind::Truncated => "truncated",
            BadKind::Entry => "entry",
            BadKind::Reply => "reply",
            BadKind::Plan => "plan",
            BadKind::Unnamed => "unnamed",
            BadKind::Board => "board",
            BadKind::Time => "time",
            BadKind::Cost => "cost",
        }
    }
}

/// What is told of a text.
#[derive(Clone, Copy, PartialEq, Eq)]
pub enum Verdict {
    /// Every record is true. There are so many entries, and so many plans in the logs.
    Good { entries: u32, plans: u32 },

    /// The first record that breaks its rule: the line that is cut or misshapen, or else the record's first line, from 1.
    Bad { line: u32, kind: BadKind },
}
