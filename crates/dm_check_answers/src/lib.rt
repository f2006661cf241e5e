//! Whether the answers of a log are true.
//!
//! It stands on dm_check_rows for what is claimed of rows, and on dm_cert for what replies tell.
//!
//! A [`Journal`] is what answers are judged by: the entries, and the [`RunSetting`] that they began with. A [`Replay`] goes over
//! a journal, so that the rows at rising entry numbers cost one walk. It knows the verdicts on claims that were judged before.
//! [`Past`] is what the next answer of a feed needs of the items before it. [`Asked`] is the line that is answered, with its
//! `Past`.
//!
//! # What is promised
//!
//! A `Replay` is seen as its journal and as the number of the entry whose rows it holds. No call of it changes the journal. Its
//! `is_true_answer` tells exactly which answers of one line are true. An answer to `carry` is judged by what of the feed's latest
//! plan is free in the rows before its entry, or where it is refused. `go_to` and `rows` give the rows at an entry.
//!
//! `learn` judges what answers claim of rows ([`Answered`]) in the order of the entries, so that several logs cost one walk. An
//! answer that makes the next of these claims is then told by the verdict that was found. Every other answer is told from the
//! rows, as if nothing were known. No clause says any of this; `is_true_answer` is exact either way.
//!
//! `Past` goes along a log. `is_next_line` and `is_in_order` tell exactly whether a line and the entry number of an answer are in
//! order behind it. `add_malformed`, `add_answer` and `add_plan` put an item behind it, `add_plan` a plan of either kind.
//! [`is_budget`] tells exactly whether a plan may be asked to have so many nodes.
//!
//! Memory is taken for the rows, for the admission of an `Adopt`, for the claims, and for the choices of a carried plan.
#![tactic(auto)]

mod adopting;
mod answering;
mod asked;
mod carrying;
mod claims;
mod journal;
mod known;
mod learning;
mod matching;
mod past;
mod planning;
mod replay;
mod timing;

pub use asked::Asked;
pub use claims::Answered;
pub use journal::{Journal, RunSetting};
pub use past::Past;
pub use planning::is_budget;
pub use replay::Replay;
