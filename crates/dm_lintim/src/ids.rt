//! Files of ids, as of the events that are cancelled at the start of a day.
ghost use Rattle.std.specs.Prelude.{ℕ, ◌≡◌, ◌≤◌, ◌⊎◌, List, [], Result, Ok, Err, length, IfOk, IfErr, MatchResult};
ghost use Rattle.dm_lintim.specs.declared.fault.FileFault.{FileFault};
ghost use Rattle.dm_lintim.specs.Files.{IsIdRow, IsNoWord, ReadsIds, no_memory};

use crate::columns::Column;
use crate::fault::FileFault;
use crate::rows::{Row, read_rows};
use crate::values::Values;
use dm_base::limits::FILE;
use std::alloc::Global;

// The one column of each file of ids.
const COLUMNS: [Option<Column>; 1] = [Some(Column::Id)];

impl Row for u32 {
    // A file of ids has no types.
    type Kind = ();

    ghost is_known = { IsNoWord };

    ghost is_row = { IsIdRow };

    ghost names = { λ _ _. ⊥ };

    ghost required = { [] };

    fn kind(_text: &[u8]) -> Option<()> {
        None
    }

    fn make(values: &Values<()>) -> u32 {
        values.number(Column::Id) as u32
    }
}

/// The ids of a file, in file order, or the first record that breaks a rule. Each record has one id.
///
/// The bytes are at most `FILE`. Memory may run out; whatever else is answered, the bytes determine it.
pub fn read_ids(alloc: Global, bytes: &[u8]) -> Result<Vec<u32>, FileFault>
    requires { length bytes.now ≤ FILE }
    ensures rows { IfOk result (λ v. ReadsIds bytes.now (Ok v.items)) }
    ensures fault { IfErr result (λ fault. (fault ≡ no_memory) ⊎ ReadsIds bytes.now (Err fault)) }
    // What the grammar reads is what is answered, unless memory runs out.
    ensures only { (answer : Result (List ℕ) FileFault) → ReadsIds bytes.now answer →
        MatchResult result (λ v. answer ≡ Ok v.items) (λ fault. (fault ≡ no_memory) ⊎ (answer ≡ Err fault)) }
{
    read_rows(alloc, bytes, &COLUMNS)
}
