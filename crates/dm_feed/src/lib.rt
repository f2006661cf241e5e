//! The lines of feeds, both ways, and the reader of a feed.
//!
//! It stands on dm_rows for messages, on dm_outside for sources, sinks and pages, on dm_base for numbers, and on `memchr` for the
//! ends of lines. A line is a list of parts, which are words and numbers, by the tables of `specs/Lines`. Each call promises what
//! its clauses say in the words of `specs/`; `specs/Inside` need not be believed.
//!
//! # What is promised
//!
//! [`read_line`] hears exactly what any bytes say: nothing (a blank line or a comment), the line whose parts they have, or that
//! they are in no form. [`print_line`] and [`print_message`] write the one spelling, or a proper front of it where a write
//! failed. [`put_line`], [`put_message`] and [`put_choice`] do so behind other text. [`read_message`] reads exactly the spellings
//! of messages, adopted lists too, and [`read_printed`] those of lines. [`copy_of_line`] and [`copy_of_message`] give what a line says once more. Only
//! [`read_message`] takes memory. A feed may name the two ids of a pair to lock or unlock either way round. In a message, and so
//! in print, the smaller stands first.
//!
//! [`LineReader`] reads a feed from a source. `LineReader::next` gives the due items of its feed in order, with their numbers and
//! meanings. Where the source tells what is left, the clauses `in_order` and `exactly` determine the answer, unless a read fails.
//! It stops at the end, where the feed is too long, or where a read failed, with its cause. It takes at most one byte above the
//! limit.
//!
//! [`hear_first`] hears the first line of bytes in memory that ends with a line feed, and leaves the bytes behind it. Or it finds
//! that no line ends so.
//!
//! Laws:
//!
//! - Bytes have one meaning.
//! - A printed line is heard as itself.
//! - Two messages with one spelling are one.
//! - Whatever its source tells, a new reader gives, up to its stop, the due items of some bytes. They are the bytes that the
//!   source told, where it told any (`given_lines_have_a_feed`).
//! - Where bytes come in parts, each cut behind a line feed, the due items of the parts are those of the whole, numbered on from
//!   part to part (`lines_are_joined`).
#![tactic(auto)]

mod buffer;
mod copying;
mod feed;
mod first_line;
mod grammar;
pub mod laws;
mod messages;
mod numbers;
mod printing;
mod reader;
mod reading;
mod vocabulary;
mod words;

pub use copying::{copy_of_line, copy_of_message};
pub use feed::{FeedStop, Next};
pub use first_line::hear_first;
pub use grammar::{Heard, Line};
pub use messages::{MessageFault, read_message, read_printed};
pub use printing::{print_line, print_message, put_choice, put_line, put_message};
pub use reader::LineReader;
pub use reading::read_line;
pub use vocabulary::Word;
