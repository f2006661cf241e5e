//! What is refused in files and in what they make, and why reading stops.

use dm_lintim::FileFault;
use dm_network::NetFault;
use dm_rows::StartFault;

/// A file of the folder, in the order of reading.
#[derive(Clone, Copy)]
pub enum File {
    Events,
    Activities,
    EventDelays,
    ActivityDelays,

    /// The ids of the events that are cancelled at the start.
    CancelledEvents,
}

/// Why a file is refused.
#[derive(Clone, Copy)]
pub enum FileFlaw {
    /// A record breaks a rule, or the file begins with a byte order mark.
    Record(FileFault),

    /// The file has more than `FILE` bytes.
    TooLong,
}

/// What is refused: one of the files, and after all files the network that they make, and then the start rows.
#[derive(Drop)]
pub enum InputFlaw {
    InFile(File, FileFlaw),

    /// The events and activities make no network.
    Network(NetFault),

    /// The delays and the cancelled events make no start rows.
    Start(StartFault),
}

/// Why there is no network with its start rows.
#[derive(Drop)]
pub enum InputStop {
    /// The first thing that is refused.
    Refused(InputFlaw),

    /// The file could not be opened, or not be read to its end.
    ReadFault(File),

    NoMemory,
}
