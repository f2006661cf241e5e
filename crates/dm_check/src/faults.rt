//! What stops the judgement of a text.

use crate::verdicts::BadKind;

/// The record that breaks its rule, by its line, from 1, and its kind.
#[derive(Clone, Copy)]
pub struct Fault {
    pub line: u32,
    pub kind: BadKind,
}

/// Why a text is judged no further.
#[derive(Clone, Copy)]
pub enum Stop {
    Fault(Fault),

    /// There is not enough memory.
    OutOfMemory,
}
