//! Messages that are heard, and what is decided of a list of choices.
ghost use Rattle.std.specs.Prelude.{IsTrue, Contains};
ghost use Rattle.dm_rows.specs.Decide.{choice_of};
ghost use Rattle.dm_rows.specs.Rows.{IsSized};

use dm_network::Network;
use dm_rows::{Choice, Decision, Message, Rows, admit};
use std::alloc::Global;

/// Makes the change of a message that nothing refuses.
pub fn hear(alloc: Global, net: &Network, rows: &mut Rows, message: &Message)
    requires { IsSized net.now rows.old }
    ensures { IsSized net.now rows.new }
{
    if let Ok(change) = admit(alloc, net, rows, message) {
        rows.apply(&change);
    }
}

/// Whether a decision decides one of these choices.
pub fn decides_one_of(choices: &[Choice], decision: Decision) -> bool
    ensures { IsTrue result → Contains choices.now (choice_of decision) }
{
    is_one_of(choices, decision.choice())
}

fn is_one_of(choices: &[Choice], choice: Choice) -> bool
    ensures { IsTrue result → Contains choices.now choice }
{
    for other in choices {
        if *other == choice {
            return true;
        }
    }
    false
}
