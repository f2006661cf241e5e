//! Files of events.
ghost use Rattle.std.specs.Prelude.{◌≡◌, ◌≤◌, ◌⊎◌, List, Result, Ok, Err, length, IfOk, IfErr, MatchResult, IfSome, IfNone};
ghost use Rattle.dm_base.specs.declared.rows.EventRow.{EventRow};
ghost use Rattle.dm_lintim.specs.declared.fault.FileFault.{FileFault};
ghost use Rattle.dm_lintim.specs.Columns.{event_required};
ghost use Rattle.dm_lintim.specs.Files.{IsEventRow, IsEventWord, IsWord, ReadsEvents, event_word, no_memory};

use crate::columns::{Column, Columns};
use crate::fault::FileFault;
use crate::field::is_word;
use crate::rows::{Row, read_rows};
use crate::values::Values;
use dm_base::limits::FILE;
use dm_base::{EventId, EventKind, EventRow, StopId};
use std::alloc::Global;

// The kind that a type word names; ASCII letters count in either case.
fn event_kind(text: &[u8]) -> Option<EventKind>
    ensures found { IfSome result (λ k. IsWord (event_word k) text.now) }
    ensures none { IfNone result (IsEventWord text.now → ⊥) }
{
    if is_word(text, "departure") {
        return Some(EventKind::Departure);
    }
    if is_word(text, "arrival") {
        return Some(EventKind::Arrival);
    }
    None
}

impl Row for EventRow {
    type Kind = EventKind;

    ghost is_known = { IsEventWord };

    ghost names = { λ kind text. IsWord (event_word kind) text };

    ghost is_row = { IsEventRow };

    ghost required = { event_required };

    fn kind(text: &[u8]) -> Option<EventKind> {
        event_kind(text)
    }

    fn make(values: &Values<EventKind>) -> EventRow {
        EventRow {
            id: EventId(values.number(Column::Id) as u32),
            kind: values.kind(),
            time: values.number(Column::Time),
            weight: values.number(Column::Weight),
            stop: StopId(values.number(Column::Stop) as u32),
        }
    }
}

/// The events of a file, in file order, or the first record that breaks a rule.
///
/// The bytes are at most `FILE`. Memory may run out; whatever else is answered, the bytes determine it.
pub fn read_events(
    alloc: Global,
    bytes: &[u8],
    columns: &Columns,
) -> Result<Vec<EventRow>, FileFault>
    requires { length bytes.now ≤ FILE }
    ensures rows { IfOk result (λ v. ReadsEvents columns.now.events bytes.now (Ok v.items)) }
    ensures fault { IfErr result (λ fault. (fault ≡ no_memory) ⊎ ReadsEvents columns.now.events bytes.now (Err fault)) }
    // What the grammar reads is what is answered, unless memory runs out.
    ensures only { (answer : Result (List EventRow) FileFault) → ReadsEvents columns.now.events bytes.now answer →
        MatchResult result (λ v. answer ≡ Ok v.items) (λ fault. (fault ≡ no_memory) ⊎ (answer ≡ Err fault)) }
{
    read_rows(alloc, bytes, columns.events())
}
