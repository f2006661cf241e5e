//! Boards that show nothing more.

/// A board that was dropped.
#[derive(Clone, Copy, PartialEq, Eq)]
pub struct Note {
    /// Its place in the list of boards, from 1.
    pub board: u32,

    /// The id of its stop.
    pub stop: u32,

    /// How many entries the history had when it was dropped.
    pub entry: u32,
}
