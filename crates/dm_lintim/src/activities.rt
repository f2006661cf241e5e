//! Files of activities.
ghost use Rattle.std.specs.Prelude.{◌≡◌, ◌≤◌, ◌⊎◌, List, Result, Ok, Err, length, IfOk, IfErr, MatchResult, IfSome, IfNone};
ghost use Rattle.dm_base.specs.declared.rows.ActRow.{ActRow};
ghost use Rattle.dm_lintim.specs.declared.fault.FileFault.{FileFault};
ghost use Rattle.dm_lintim.specs.Columns.{activity_required};
ghost use Rattle.dm_lintim.specs.Files.{IsActivityRow, IsActivityWord, IsWord, ReadsActivities, activity_word, no_memory};

use crate::columns::{Column, Columns};
use crate::fault::FileFault;
use crate::field::is_word;
use crate::rows::{Row, read_rows};
use crate::values::Values;
use dm_base::limits::FILE;
use dm_base::{ActId, ActKind, ActRow, EventId};
use std::alloc::Global;

// The kind that a type word names; ASCII letters count in either case. Headways are the most, so their word is tried first.
fn activity_kind(text: &[u8]) -> Option<ActKind>
    ensures found { IfSome result (λ k. IsWord (activity_word k) text.now) }
    ensures none { IfNone result (IsActivityWord text.now → ⊥) }
{
    if is_word(text, "headway") {
        return Some(ActKind::Headway);
    }
    if is_word(text, "drive") {
        return Some(ActKind::Drive);
    }
    if is_word(text, "wait") {
        return Some(ActKind::Wait);
    }
    if is_word(text, "turnaround") {
        return Some(ActKind::Turnaround);
    }
    if is_word(text, "change") {
        return Some(ActKind::Change);
    }
    None
}

impl Row for ActRow {
    type Kind = ActKind;

    ghost is_known = { IsActivityWord };

    ghost names = { λ kind text. IsWord (activity_word kind) text };

    ghost is_row = { IsActivityRow };

    ghost required = { activity_required };

    fn kind(text: &[u8]) -> Option<ActKind> {
        activity_kind(text)
    }

    fn make(values: &Values<ActKind>) -> ActRow {
        ActRow {
            id: ActId(values.number(Column::Id) as u32),
            kind: values.kind(),
            tail: EventId(values.number(Column::Tail) as u32),
            head: EventId(values.number(Column::Head) as u32),
            lower: values.number(Column::Lower),
            weight: values.number(Column::Weight),
        }
    }
}

/// The activities of a file, in file order, or the first record that breaks a rule.
///
/// The bytes are at most `FILE`. Memory may run out; whatever else is answered, the bytes determine it.
pub fn read_activities(
    alloc: Global,
    bytes: &[u8],
    columns: &Columns,
) -> Result<Vec<ActRow>, FileFault>
    requires { length bytes.now ≤ FILE }
    ensures rows { IfOk result (λ v. ReadsActivities columns.now.activities bytes.now (Ok v.items)) }
    ensures fault { IfErr result (λ fault. (fault ≡ no_memory) ⊎ ReadsActivities columns.now.activities bytes.now (Err fault)) }
    // What the grammar reads is what is answered, unless memory runs out.
    ensures only { (answer : Result (List ActRow) FileFault) → ReadsActivities columns.now.activities bytes.now answer →
        MatchResult result (λ v. answer ≡ Ok v.items) (λ fault. (fault ≡ no_memory) ⊎ (answer ≡ Err fault)) }
{
    read_rows(alloc, bytes, columns.activities())
}
