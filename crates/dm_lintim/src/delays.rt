//! Files of delays, of events or of activities.
ghost use Rattle.std.specs.Prelude.{◌≡◌, ◌≤◌, ◌⊎◌, List, [], Result, Ok, Err, length, IfOk, IfErr, MatchResult};
ghost use Rattle.dm_base.specs.declared.rows.DelayRow.{DelayRow};
ghost use Rattle.dm_lintim.specs.declared.fault.FileFault.{FileFault};
ghost use Rattle.dm_lintim.specs.Files.{IsDelayRow, IsNoWord, ReadsDelays, no_memory};

use crate::columns::Column;
use crate::fault::FileFault;
use crate::rows::{Row, read_rows};
use crate::values::Values;
use dm_base::DelayRow;
use dm_base::limits::FILE;
use std::alloc::Global;

// The columns of each delay file.
const COLUMNS: [Option<Column>; 2] = [Some(Column::Id), Some(Column::Delay)];

impl Row for DelayRow {
    // A delay file has no types.
    type Kind = ();

    ghost is_known = { IsNoWord };

    ghost is_row = { IsDelayRow };

    ghost names = { λ _ _. ⊥ };

    ghost required = { [] };

    fn kind(_text: &[u8]) -> Option<()> {
        None
    }

    fn make(values: &Values<()>) -> DelayRow {
        DelayRow {
            id: values.number(Column::Id) as u32,
            delay: values.number(Column::Delay),
        }
    }
}

/// The delays of a file, in file order, or the first record that breaks a rule. Each record has an id and a delay.
///
/// The bytes are at most `FILE`. Memory may run out; whatever else is answered, the bytes determine it.
pub fn read_delays(alloc: Global, bytes: &[u8]) -> Result<Vec<DelayRow>, FileFault>
    requires { length bytes.now ≤ FILE }
    ensures rows { IfOk result (λ v. ReadsDelays bytes.now (Ok v.items)) }
    ensures fault { IfErr result (λ fault. (fault ≡ no_memory) ⊎ ReadsDelays bytes.now (Err fault)) }
    // What the grammar reads is what is answered, unless memory runs out.
    ensures only { (answer : Result (List DelayRow) FileFault) → ReadsDelays bytes.now answer →
        MatchResult result (λ v. answer ≡ Ok v.items) (λ fault. (fault ≡ no_memory) ⊎ (answer ≡ Err fault)) }
{
    read_rows(alloc, bytes, &COLUMNS)
}
