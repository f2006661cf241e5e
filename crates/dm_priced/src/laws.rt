//! What holds of every priced timetable. A law has no code: it is proved as the contract of an empty function.

ghost use Rattle.std.specs.Prelude.{ℕ, ◌≡◌, Bool};
ghost use Rattle.dm_network.specs.Net.{Net, EndsAreKnown};
ghost use Rattle.dm_rows.specs.Cost.{cost_charging, cost_of, is_lost_change};
ghost use Rattle.dm_rows.specs.Rows.{RowsValue};
ghost use Rattle.dm_priced.specs.Priced.{PricedValue, priced_cost, FollowsPrice};

/// Where it follows rows and charges for some activities, it costs what the rows do with these charges.
pub fn costs_as_charged()
    ensures { (net : Net) (rows : RowsValue) (charges : ℕ → Bool) (priced : PricedValue) (penalty : ℕ) → EndsAreKnown net →
        FollowsPrice net rows charges priced → priced_cost net priced penalty ≡ cost_charging net rows charges priced.live.times penalty }
{}

/// Where it follows rows and charges for their lost changes, it costs what the rows do.
pub fn costs_as_rows()
    ensures { (net : Net) (rows : RowsValue) (priced : PricedValue) (penalty : ℕ) → EndsAreKnown net →
        FollowsPrice net rows (is_lost_change net rows) priced
        → priced_cost net priced penalty ≡ cost_of net rows priced.live.times penalty }
{}
