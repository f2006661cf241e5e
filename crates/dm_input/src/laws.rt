//! What the definitions of inputs say, whatever the words and files: each function's contract is a law, and its body is empty.
ghost use Rattle.std.specs.Prelude.{◌≡◌, ◌≢◌, List, IsSome};
ghost use Rattle.dm_base.specs.declared.rows.ActRow.{ActRow};
ghost use Rattle.dm_base.specs.declared.rows.EventRow.{EventRow};
ghost use Rattle.dm_network.specs.Build.{IsBuiltFrom, IsMadeOf, RefusesRecords};
ghost use Rattle.dm_network.specs.declared.parts.NetFault.{NetFault};
ghost use Rattle.dm_network.specs.Net.{Net};
ghost use Rattle.dm_input.specs.Input.{Told, OpeningAnswer};
ghost use Rattle.dm_input.specs.Order.{IsOne};
ghost use Rattle.dm_words.specs.Words.{FilesAsked};

use dm_network::NetFault;

/// The records of two files make one network at most.
pub fn records_make_one_network()
    ensures { (events : List EventRow) (activities : List ActRow) (one other : Net) → IsMadeOf events activities one
        → IsMadeOf events activities other → one ≡ other }
{}

/// Records that make a network are not refused.
pub fn records_are_made_or_refused()
    ensures { (events : List EventRow) (activities : List ActRow) (fault : NetFault) → RefusesRecords events activities fault → (net : Net)
        → IsBuiltFrom events activities net → fault ≢ NetFault.OutOfMemory → ⊥ }
{}

/// Words, and files that the shelf tells, determine one network with its start rows or one first refusal, but for which
/// cycle is shown.
pub fn openings_are_one()
    ensures { (told : Told) (asked : FilesAsked) → IsSome told → IsOne (OpeningAnswer told asked) }
{}
