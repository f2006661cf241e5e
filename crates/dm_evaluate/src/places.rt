//! Where a path decides a choice.
ghost use Rattle.std.specs.Prelude.{◌≡◌, true};
ghost use Rattle.dm_rows.specs.Decide.{choice_of};
ghost use Rattle.dm_rows.specs.Relax.{is_same_choice, is_decided};
ghost use Rattle.dm_evaluate.specs.Inside.Places.{DecidesAt};

use dm_rows::{Choice, Decision};

/// The place of the last decision of a path that decides a choice. It is looked for from the end, where the decisions stand
/// that were made last.
pub fn place_of(path: &[Decision], choice: Choice) -> usize
    requires { is_decided path.now choice ≡ true }
    ensures { DecidesAt path.now choice result }
{
    for place in (0..path.len()).rev() {
        if decides(path[place], choice) {
            return place;
        }
    }
    unreachable!()
}

/// Whether some decision of a path decides a choice. It is looked for from the end too.
pub fn is_decided(path: &[Decision], choice: Choice) -> bool
    ensures { result ≡ is_decided path.now choice }
{
    for place in (0..path.len()).rev() {
        if decides(path[place], choice) {
            return true;
        }
    }
    false
}

fn decides(decision: Decision, choice: Choice) -> bool
    ensures { result ≡ is_same_choice (choice_of decision) choice }
{
    decision.choice().is_same(choice)
}
