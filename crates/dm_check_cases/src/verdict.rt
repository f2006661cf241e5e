//! Verdicts in print.

use dm_check::{BadKind, Verdict};
use std::alloc::{AllocError, Global};

/// A verdict in print.
pub fn spelling_of(alloc: Global, verdict: Verdict) -> Result<String, AllocError> {
    match verdict {
        Verdict::Good { entries, plans } => format!(in alloc; "good {entries} {plans}"),
        Verdict::Bad { line, kind } => {
            let kind = word_of(kind);
            format!(in alloc; "bad {line} {kind}")
        }
    }
}

fn word_of(kind: BadKind) -> &'static str {
    match kind {
        BadKind::Form => "form",
        BadKind::Truncated => "truncated",
        BadKind::Entry => "entry",
        BadKind::Reply => "reply",
        BadKind::Plan => "plan",
        BadKind::Unnamed => "unnamed",
        BadKind::Board => "board",
        BadKind::Time => "time",
        BadKind::Cost => "cost",
    }
}
