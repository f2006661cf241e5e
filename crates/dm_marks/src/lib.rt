//! Marks at places, with the first mark from a place on, and sets that list their places as they come.
//!
//! It stands on the standard library alone. [`Marks`] are seen as the list of their flags. Beside the flags, each place has a bit
//! in a word. Each word has a bit in a group, which tells whether the word may have marks. So a walk over the marks goes from bit
//! to bit, and passes over 4,096 places at a time where there is no mark. A [`PlaceSet`] tells which places are in, and lists
//! them. Listing or emptying a set costs the places that are in, and no others.
//!
//! # What is promised
//!
//! `Marks`: `first_from` finds the first mark from a place on, or tells that there is none. `take_first_from` finds the same, and
//! takes that mark away and no other. `is` tells exactly whether a place is marked, and `is_any` whether some place is. `mark`,
//! `clear`, `mark_all` and `clear_all` change exactly what they name.
//!
//! `PlaceSet`: `insert` puts one place in, and `clear` takes all out. `places` lists exactly those that are in, in no more
//! entries than there are places (`reveal`).
//!
//! Only `new` and `all` take memory.
#![tactic(auto)]

mod marks;
mod place_set;

pub use marks::Marks;
pub use place_set::PlaceSet;
