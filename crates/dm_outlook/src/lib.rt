//! A plan of a window at an entry of a table, and what becomes of it at the last entry.
//!
//! It stands on dm_stretch for windows and for plans that are carried over, on dm_table and dm_rows for the rows at an entry, and on
//! dm_cert, dm_report and dm_outside for texts. What searches for plans of windows is handed in, as a closure (`SearchesWindows`).
//!
//! # What is promised
//!
//! `outlook_of` gives a true plan of the window for the rows at an entry (`IsOutlook`). That is the last entry, or one that is
//! named and is no later. If asked, it also says which of the plan's choices are kept when those that are worth little are given
//! back (`IsMinimalFor`). Where an entry is named, it also says what becomes of the plan's choices at the last entry. It says one
//! of these, each exactly where it holds:
//!
//! - the choices that differ from the rows there, and what those rows cost with them;
//! - the first choice that is not free any more;
//! - a cycle that the choices make.
//!
//! The only other answer is want of memory.
//!
//! `print_outlook` writes exactly the text of all that (`outlook_text`): the window; how many choices are held, if some are; the
//! plan as in a run text; the choices that are kept, if that was asked; and what becomes of the plan. A write fault comes only
//! where a write failed. The sink has then taken a front of the text, and not all of it. `print_outlook` takes no memory.
#![tactic(auto)]

mod outlook;
mod printing;

pub use outlook::{Carried, Outlook, outlook_of};
pub use printing::print_outlook;
