//! What is adopted of a plan, and why it is not.

ghost use Rattle.std.specs.Prelude.{◌≡◌, IfOk};
ghost use Rattle.dm_tree.specs.Plans.{chosen};

use dm_base::Items;
use dm_rows::{Decision, Refusal};
use std::alloc::{AllocError, Global};

/// What an adoption takes of a plan.
pub struct Chosen {
    /// How many entries the history has whose rows the plan is for.
    pub entry: u32,

    /// The decisions that differ from these rows, the changes in ascending id and then the pairs, none twice.
    pub choices: Items<Decision>,
}

impl Drop for Chosen {
    fn drop(self) {
        let Chosen {
            entry: _,
            choices: _,
        } = self;
    }
}

impl Chosen {
    /// These choices, for the rows after so many entries. `Err` is want of memory alone.
    pub fn copied(alloc: Global, entry: u32, choices: &[Decision]) -> Result<Chosen, AllocError>
        ensures { IfOk result (λ plan. plan ≡ chosen entry choices.now) }
    {
        match Vec::from_slice(alloc, choices) {
            Ok(choices) => Ok(Chosen {
                entry,
                choices: Items::from_vec(choices),
            }),
            Err(AllocError) => Err(AllocError),
        }
    }
}

/// Why a plan is not adopted.
#[derive(Clone, Copy, PartialEq, Eq)]
pub enum AdoptRefusal {
    /// The history has this many entries, more than the plan's.
    Old { now: u32 },

    /// The history has this many entries, as many as the plan's, and takes no more.
    Full { now: u32 },

    /// There is not enough memory.
    OutOfMemory,
}

impl AdoptRefusal {
    /// The answer where nothing but want of memory refuses the message that adopts.
    pub fn want_of_memory(refusal: Refusal) -> AdoptRefusal
        requires { refusal ≡ Refusal.OutOfMemory }
        ensures { result ≡ AdoptRefusal.OutOfMemory }
    {
        prove!(matches!(refusal, Refusal::OutOfMemory));
        AdoptRefusal::OutOfMemory
    }
}
