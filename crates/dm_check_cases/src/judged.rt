//! What is told of the texts of a case.
ghost use Rattle.std.specs.Prelude.{◌≤◌};
ghost use Rattle.dm_base.specs.declared.limits.TheConstants.{PENALTY};
ghost use Rattle.dm_rows.specs.Rows.{IsSized};
ghost use Rattle.dm_cert.specs.declared.limits.TheConstants.{PLANS};

use crate::verdict::spelling_of;
use dm_base::limits::TEXT;
use dm_check::{BadKind, Verdict, check};
use dm_network::Network;
use dm_rows::Rows;
use std::alloc::Global;
use std::str;

/// What each byte of a text is replaced by.
const BYTES: [u8; 5] = [b'\n', b' ', b'0', b'7', b'z'];

/// What is due where each front of a text is to lack its next line.
const EVERY_FRONT: &str = "every front truncated";

/// What is due where each byte of a text is replaced in turn.
pub const EVERY_BYTE: &str = "every byte judged";

/// What a text is judged at: the penalty in seconds for each passenger, and how many plans a feed may have.
#[derive(Clone, Copy)]
pub struct Terms {
    pub penalty: u64,
    pub plans: u32,
}

/// What is told of a text, of its fronts, or of what it is with one byte replaced, as is asked by what is due.
pub fn told_as(
    alloc: Global,
    net: &Network,
    rows: &Rows,
    terms: Terms,
    asked: &str,
    text: &[u8],
    due: &[u8],
) -> Option<String>
    requires sized { IsSized net.now rows.now }
    requires penalty { terms.penalty ≤ PENALTY }
    requires plans { terms.plans ≤ PLANS }
{
    if asked == EVERY_FRONT {
        told_of_fronts(alloc, net, rows, terms, text)
    } else if asked == EVERY_BYTE {
        told_of_bytes(alloc, net, rows, terms, text, due)
    } else {
        told(alloc, net, rows, terms, text)
    }
}

/// The verdict on a text, or `None` where memory is wanting.
fn verdict_on(
    alloc: Global,
    net: &Network,
    rows: &Rows,
    terms: Terms,
    text: &[u8],
) -> Option<Verdict>
    requires sized { IsSized net.now rows.now }
    requires penalty { terms.penalty ≤ PENALTY }
    requires plans { terms.plans ≤ PLANS }
{
    if text.len() > TEXT {
        return None;
    }
    check(alloc, net, rows, terms.penalty, terms.plans, text).ok()
}

/// The verdict on a text, in print.
fn told(alloc: Global, net: &Network, rows: &Rows, terms: Terms, text: &[u8]) -> Option<String>
    requires sized { IsSized net.now rows.now }
    requires penalty { terms.penalty ≤ PENALTY }
    requires plans { terms.plans ≤ PLANS }
{
    let verdict = verdict_on(alloc, net, rows, terms, text)?;
    spelling_of(alloc, verdict).ok()
}

/// `every front truncated` where each front of the text lacks its next line, or the length of a front that does not.
fn told_of_fronts(
    alloc: Global,
    net: &Network,
    rows: &Rows,
    terms: Terms,
    text: &[u8],
) -> Option<String>
    requires sized { IsSized net.now rows.now }
    requires penalty { terms.penalty ≤ PENALTY }
    requires plans { terms.plans ≤ PLANS }
{
    let mut line: u32 = 1;
    for (length, byte) in text.iter().enumerate() {
        let due = Verdict::Bad {
            line,
            kind: BadKind::Truncated,
        };
        let front = text.get(..length)?;
        if verdict_on(alloc, net, rows, terms, front)? != due {
            return format!(in alloc; "front {length}").ok();
        }
        if *byte == b'\n' {
            line = line.saturating_add(1);
        }
    }
    format!(in alloc; "{EVERY_FRONT}").ok()
}

/// `every byte judged` where the text with each byte replaced is told what is due, a line for each byte, or the place of a byte
/// for which it is not.
fn told_of_bytes(
    alloc: Global,
    net: &Network,
    rows: &Rows,
    terms: Terms,
    text: &[u8],
    due: &[u8],
) -> Option<String>
    requires sized { IsSized net.now rows.now }
    requires penalty { terms.penalty ≤ PENALTY }
    requires plans { terms.plans ≤ PLANS }
{
    let mut lines = str::from_utf8(due).ok()?.lines();
    for place in 0..text.len() {
        let told = told_of_byte(alloc, net, rows, terms, text, place)?;
        if lines.next() != Some(told.as_str()) {
            return format!(in alloc; "{told} at byte {place}").ok();
        }
    }
    format!(in alloc; "{EVERY_BYTE}").ok()
}

/// What is told where one byte is replaced, for each byte that it is replaced by.
fn told_of_byte(
    alloc: Global,
    net: &Network,
    rows: &Rows,
    terms: Terms,
    text: &[u8],
    place: usize,
) -> Option<String>
    requires sized { IsSized net.now rows.now }
    requires penalty { terms.penalty ≤ PENALTY }
    requires plans { terms.plans ≤ PLANS }
{
    let mut all = String::new(alloc);
    for byte in BYTES {
        let other = replaced(alloc, text, place, byte)?;
        let one = told(alloc, net, rows, terms, &other)?;
        all = format!(in alloc; "{all}{one},").ok()?;
    }
    Some(all)
}

fn replaced(alloc: Global, text: &[u8], place: usize, byte: u8) -> Option<Vec<u8>> {
    let mut other = Vec::from_slice(alloc, text).ok()?;
    if place < other.len() {
        other[place] = byte;
    }
    Some(other)
}
