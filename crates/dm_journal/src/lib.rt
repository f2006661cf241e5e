//! The stage that reads a text for the commands that ask something of its journal.
//!
//! It stands on dm_follow for journals, on dm_outside for shelves and sources, and on dm_input for what a shelf tells.
//!
//! [`read_journal`] reads a text to its end, or to one byte more than a text may have, before it answers. So a read that fails is
//! answered first, then a text that is too long, and then the first line of its journal that breaks a rule. What stands behind
//! the last entry is passed over.
//!
//! # What is promised
//!
//! `read_journal`, where the rows have no cycle:
//!
//! - At Ok the bytes are at most as many as a text may have. They are those that the shelf tells under the name, where it tells
//!   them.
//! - `Whole` comes with a journal whose lines all stand whole, and `Torn` with the first line that does not. Both give a follower
//!   of this network, these rows and this penalty. It has taken all of the bytes (dm_follow says what that means), and no line of
//!   the journal breaks its rule.
//! - `Broken` comes with the front fault: the first line that breaks its rule.
//! - `ReadFault` comes only where the shelf does not tell that the name is sound, and `TooLong` only where more bytes stand under
//!   the name. The only other error is want of memory.
//! - The shelf tells what it told before.
#![tactic(auto)]

mod giving;
mod reading;

pub use giving::{BrokenLine, BrokenRule, Journal};
pub use reading::read_journal;
