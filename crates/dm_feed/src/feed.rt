//! What a feed's reader answers.

use crate::grammar::Heard;

/// Why a feed is read no further.
#[derive(Clone, Copy, PartialEq, Eq, Debug)]
pub enum FeedStop {
    /// It was read to its end.
    End,

    /// A read failed.
    Fault,

    /// Its reader takes no more of it: 262,144 bytes at most of a feed that is read once, 67,108,864 of one that grows.
    Long,
}

/// What comes next in a feed.
#[derive(PartialEq, Eq, Debug, Drop)]
pub enum Next {
    /// The line of this number, from 1, which is neither blank nor a comment.
    Due { line: u32, heard: Heard },

    Stop(FeedStop),
}
