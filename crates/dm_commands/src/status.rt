//! How the program ends.

/// How the program ends.
#[derive(Clone, Copy, PartialEq, Eq, Debug)]
pub enum Status {
    /// All was read to the end and written, a text that was checked is good, and what was asked of a journal is answered.
    Ok = 0,

    /// A text that was checked is not good, or the journal of a text has a line that breaks its rule, or one that is wanted and
    /// not whole.
    Bad = 1,

    /// The words are in no form.
    Usage = 2,

    /// A file, the network, a start row or a text that is too long is refused, or a feed is too long and none could not be read.
    Refused = 3,

    /// A file, a text or a feed could not be read.
    ReadFault = 4,

    /// The text could not be written whole.
    WriteFault = 5,

    /// There was not enough memory, and nothing is written.
    NoMemory = 6,
}
