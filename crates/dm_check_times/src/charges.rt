//! What the penalty is charged for, and the weight at an activity that it is multiplied by.
ghost use Rattle.std.specs.Prelude.{◌≡◌, ◌<◌, ◌≤◌, ◌*◌, length};
ghost use Rattle.dm_base.specs.declared.limits.TheConstants.{WEIGHT};
ghost use Rattle.dm_rows.specs.Rows.{IsSized};
ghost use Rattle.dm_rows.specs.Cost.{charged_weight};
ghost use Rattle.dm_check_times.specs.Binding.{AreBelowLimit};
ghost use Rattle.dm_check_times.specs.KeptCosts.{charges_of, AreChargesTo, priced_weight};

use crate::costing::missed_weight;
use dm_base::{Milli, Secs};
use dm_network::Network;
use dm_rows::{Rows, is_lost_change};

/// The activities that the penalty is charged for, beside the changes that their passed heads have missed.
#[derive(Clone, Copy)]
pub enum Charges<'a> {
    /// The changes of the rows whose heads have not passed and that are dropped or have a cancelled end.
    Lost,

    /// Those that are flagged. There is a flag for each activity.
    Flagged(&'a [bool]),
}

/// The weight of which the penalty is taken at an activity: its own where it is charged for, and where it is missed.
pub(crate) fn priced_weight(
    net: &Network,
    rows: &Rows,
    charges: &Charges<'_>,
    times: &[Secs],
    a: usize,
) -> Milli
    requires sized { IsSized net.now rows.now }
    requires charges { AreChargesTo net.now charges.now }
    requires as_many { length times.now ≡ length net.now.events }
    requires early { AreBelowLimit times.now }
    requires is_activity { a < length net.now.activities }
    ensures weight { result ≡ priced_weight net.now rows.now (charges_of net.now rows.now charges.now) times.now a }
    ensures limit { result ≤ 2 * WEIGHT }
{
    charged_weight(net, rows, charges, a) + missed_weight(net, rows, times, a)
}

/// The weight of an activity, if it is charged for.
fn charged_weight(net: &Network, rows: &Rows, charges: &Charges<'_>, a: usize) -> Milli
    requires sized { IsSized net.now rows.now }
    requires charges { AreChargesTo net.now charges.now }
    requires is_activity { a < length net.now.activities }
    ensures weight { result ≡ charged_weight net.now (charges_of net.now rows.now charges.now) a }
    ensures limit { result ≤ WEIGHT }
{
    net.reveal();
    if is_charged(net, rows, charges, a) {
        net.activity(a).weight
    } else {
        0
    }
}

/// Whether an activity is charged for.
fn is_charged(net: &Network, rows: &Rows, charges: &Charges<'_>, a: usize) -> bool
    requires sized { IsSized net.now rows.now }
    requires charges { AreChargesTo net.now charges.now }
    requires is_activity { a < length net.now.activities }
    ensures { result ≡ charges_of net.now rows.now charges.now a }
{
    match charges {
        Charges::Lost => is_lost_change(net, rows, a),
        Charges::Flagged(flags) => flags[a],
    }
}
