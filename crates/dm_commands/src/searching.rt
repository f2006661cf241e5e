//! Which kind of plan is searched for.
ghost use Rattle.std.specs.Prelude.{◌≡◌};
ghost use Rattle.dm_commands.specs.Searching.{search_for};
ghost use Rattle.dm_desk.specs.Planning.{budget_of};

use dm_desk::Search;

/// A plan of so many nodes, or one by parts.
pub fn search_for(solve: bool, budget: u64) -> Search
    ensures search { result ≡ search_for solve budget }
    ensures budget { budget_of result ≡ budget }
{
    if solve {
        Search::Solve(budget)
    } else {
        Search::Plan(budget)
    }
}
