//! Why a follower stops, and what it has of a journal.

/// Why a line, or a piece, is not taken.
#[derive(Clone, Copy, PartialEq, Eq)]
pub enum FollowKind {
    /// The line has not the form that must stand there, or says a number of the header that may not stand there.
    Form = 1,

    /// The line is an entry that is not in turn, or that the rows after the entries before it refuse.
    Entry = 2,

    /// There was not enough memory. It is of no line.
    OutOfMemory = 3,
}

/// The first line of a journal that stands whole and breaks its rule, or want of memory.
#[derive(Clone, Copy, PartialEq, Eq)]
pub struct FollowFault {
    /// The number of the line, from 1, and 0 for want of memory.
    pub line: u32,
    pub kind: FollowKind,
}

/// Want of memory.
pub(crate) const NO_MEMORY: FollowFault = FollowFault {
    line: 0,
    kind: FollowKind::OutOfMemory,
};

/// What a follower has of the lines of a journal.
#[derive(Clone, Copy, PartialEq, Eq)]
pub enum Tail {
    /// All entries that the header tells.
    Whole,

    /// The first line that is not whole, from 1, and how many bytes of it were taken.
    Torn { line: u32, bytes: u64 },

    /// The line that breaks its rule.
    Failed { line: u32 },
}
