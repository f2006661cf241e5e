//! How a server, or the text of a store, ends.

/// How a server, or the text of a store, ends.
#[derive(Clone, Copy, PartialEq, Eq)]
pub enum Status {
    /// It was told to end, or asked for the text, and the run's text was printed.
    Ok = 0,

    /// The words behind `serve` or `text` are in no form.
    Usage = 2,

    /// The files, the store or a feed are refused.
    Refused = 3,

    /// A file, a feed or the store could not be opened or read at the start.
    ReadFault = 4,

    /// The journal, a reply file or the output could not be written or synced.
    WriteFault = 5,

    /// There was not enough memory.
    NoMemory = 6,
}
