//! Choices and nodes, which a plan lists one to a line: how they are printed and read.
ghost use Rattle.std.specs.Prelude.{List, ℕ, [], All, OnOk};
ghost use Rattle.std.specs.List.{flat_map};
ghost use Rattle.dm_outside.specs.Printing.{Prints};
ghost use Rattle.dm_text.specs.Judging.{Line, Times};
ghost use Rattle.dm_cert.specs.PlansRead.{Answers, cut_line, misshapen_line};
ghost use Rattle.dm_cert.specs.Inside.PlanLines.{Reads};

use crate::faults::WANT_OF_MEMORY;
use crate::{CertFault, CertKind};
use dm_outside::{Page, Sink, WriteFault};
use dm_text::Lines;
use std::alloc::Global;

/// What stands on a line of a plan.
pub(crate) trait Listed: Copy {
    /// Its line, with the line's end.
    ghost text: { Self → List ℕ };

    /// It holds no more than its text may.
    ghost is_within: { Self → Type 0 };

    /// It is spelled by a line.
    ghost is_line: { Self → List ℕ → Type 0 };

    /// Prints its line.
    fn put<K: Sink>(self, sink: &mut K, page: &mut Page) -> Result<(), WriteFault>
        ensures prints { Prints K.taken K.faults sink.old sink.new page.old page.new result (text self) }
        ensures fits { is_within self };

    /// What a line without its end spells.
    fn read(line: &[u8]) -> Option<Self>
        ensures { Reads is_line line.now result };
}

/// Prints the lines of all.
pub(crate) fn put_listed<L: Listed, K: Sink>(
    sink: &mut K,
    page: &mut Page,
    items: &[L],
) -> Result<(), WriteFault>
    ensures text { Prints K.taken K.faults sink.old sink.new page.old page.new result (flat_map L.text items.now) }
    ensures fits { OnOk result (All L.is_within items.now) }
{
    for item in items {
        let Ok(()) = item.put(sink, page) else {
            return Err(WriteFault);
        };
    }
    Ok(())
}

/// What the next line spells.
fn read_line<L: Listed>(lines: &mut Lines) -> Result<L, CertFault>
    ensures { Answers (Line cut_line misshapen_line L.is_line) (λ v. v) lines.old lines.new result }
{
    let number = lines.line();
    let Some(line) = lines.next_line() else {
        return Err(CertFault {
            line: number,
            kind: CertKind::Truncated,
        });
    };
    let Some(item) = L::read(line) else {
        return Err(CertFault {
            line: number,
            kind: CertKind::Form,
        });
    };
    Ok(item)
}

/// As many as are counted, a line each. The list grows as lines are found, so that a number says nothing of memory.
pub(crate) fn read_listed<L: Listed>(
    alloc: Global,
    lines: &mut Lines,
    count: u128,
) -> Result<Vec<L>, CertFault>
    ensures { Answers (Times count (λ before. Line cut_line misshapen_line L.is_line) []) (λ v. v.items) lines.old lines.new result }
{
    let mut items = Vec::new(alloc);
    while (items.len() as u128) < count {
        let item = match read_line::<L>(lines) {
            Ok(item) => item,
            Err(fault) => return Err(fault),
        };
        let Ok(()) = items.push(item) else {
            return Err(WANT_OF_MEMORY);
        };
    }
    Ok(items)
}
