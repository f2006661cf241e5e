//! Leaves read with their paths.
ghost use Rattle.std.specs.Prelude.{IfOk, MatchOption};
ghost use Rattle.dm_text.specs.Judging.{Line};
ghost use Rattle.dm_cert.specs.PlansRead.{Answers, IsLeafLine, cut_line, misshapen_line};
ghost use Rattle.dm_cert.specs.Inside.PlanPaths.{IsPath, IsNoPath};

use crate::faults::WANT_OF_MEMORY;
use crate::plan_lines::{decision_in, leaf_in};
use crate::{CertFault, CertKind};
use dm_base::Items;
use dm_rows::Decision;
use dm_text::Lines;
use dm_tree::Leaf;
use std::alloc::{AllocError, Global};

/// The decisions that the bytes are, each with a space in front, or None where they are none.
fn path_of(alloc: Global, bytes: &[u8]) -> Result<Option<Vec<Decision>>, AllocError>
    ensures { IfOk result (λ found. MatchOption found (IsNoPath bytes.now) (λ path. IsPath path.items bytes.now)) }
{
    let mut path = Vec::new(alloc);
    let mut rest = bytes;
    while let Some((decision, behind)) = decision_in(rest) {
        path.push(decision)?;
        rest = behind;
    }
    if rest.is_empty() {
        Ok(Some(path))
    } else {
        Ok(None)
    }
}

/// The next line, which should be a leaf with its path.
pub(crate) fn leaf_line(alloc: Global, lines: &mut Lines) -> Result<Leaf, CertFault>
    ensures { Answers (Line cut_line misshapen_line IsLeafLine) (λ l. l) lines.old lines.new result }
{
    let number = lines.line();
    let Some(line) = lines.next_line() else {
        return Err(CertFault {
            line: number,
            kind: CertKind::Truncated,
        });
    };
    let Some((node, rest)) = leaf_in(line) else {
        return Err(CertFault {
            line: number,
            kind: CertKind::Form,
        });
    };
    let Ok(found) = path_of(alloc, rest) else {
        return Err(WANT_OF_MEMORY);
    };
    let Some(path) = found else {
        return Err(CertFault {
            line: number,
            kind: CertKind::Form,
        });
    };
    Ok(Leaf {
        path: Items::from_vec(path),
        node,
    })
}
