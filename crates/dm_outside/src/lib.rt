//! The outside of the dispatcher's server: sources, shelves, sinks and boards, and gates that may hold a run up.
//!
//! Bytes come from sources and shelves and go to sinks; boards show times. It stands on `itoa` for the digits of numbers.
//!
//! Each trait but `Gate` says what its object can tell: what is left of a source, what a sink took, what a shelf holds and what a
//! board shows. The forms in memory tell all of it, and say how they go on. The real forms tell nothing: they are the trusted
//! edge. `Page` gathers the pieces of a long text before the sink takes them.
//!
//! # What is promised
//!
//! The traits `Source`, `Sink`, `Shelf` and `Board` keep a count of faults. It never falls, and it has risen, or stands at its
//! last value, after each failed call. A source, a shelf and a board may tell that they are sound: that no call will fail. A
//! `Gate` tells nothing and has no count.
//!
//! The forms in memory meet the traits with all that they tell. A call fails exactly where its number is listed, where a full
//! sink is given bytes, or where a shelf has no file of the name. `Calls` counts calls and faults exactly. All else but the bytes
//! stays.
//!
//! `take_all` takes exactly what is left, where that is at most a limit. `TooLong` comes only where it is more, and then one byte
//! more than the limit was taken. `ReadFault` comes only where the count rose and the source did not tell that it is sound. The
//! only other fault is want of memory.
//!
//! `put_all`, `put_pieces`, and a `Page` with its calls `put`, `put_bytes`, `put_number` and `put_pair` and its `finish`, put
//! exactly the text into the sink. On a fault the sink has taken a proper front of it. They take no memory. An `OpenGate` holds
//! nobody up.
#![tactic(auto)]

mod boards;
mod calls;
mod faults;
mod gates;
mod page;
mod put;
mod real;
mod shelves;
mod sinks;
mod sources;
mod take;

pub use boards::Board;
pub use calls::Calls;
pub use faults::{Failed, TakeFault, WriteFault};
pub use gates::{Gate, OpenGate};
pub use page::{Page, Piece};
pub use put::{put_all, put_pieces};
pub use real::{FileSource, FolderShelf, Real, StdSink};
pub use shelves::{MemFile, MemShelf, Shelf};
pub use sinks::{MemSink, Sink};
pub use sources::{MemSource, Source};
pub use take::take_all;
