//! The relaxed problem of a path, filled in.
ghost use Rattle.std.specs.Prelude.{◌≡◌, ◌<◌, length, IfOk};
ghost use Rattle.dm_network.specs.Net.{activity_at};
ghost use Rattle.dm_rows.specs.Rows.{IsSized};
ghost use Rattle.dm_rows.specs.Decide.{IsChoiceList, with_decisions};
ghost use Rattle.dm_rows.specs.Relax.{is_undecided_change, is_undecided_pair, is_of_undecided};
ghost use Rattle.dm_paths.specs.Flags.{AreFlags};

use dm_network::Network;
use dm_paths::{Undecided, all_undecided, flip_of, with_decisions};
use dm_rows::{Decision, Rows, is_active};
use dm_times::{AsRowsSay, Charging, Holding};
use std::alloc::{AllocError, Global};

/// The rows with the decisions of a path set, and what the path leaves undecided.
#[derive(Drop)]
pub struct Relaxation<'a> {
    pub net: &'a Network,
    pub rows: &'a Rows,
    pub path: &'a [Decision],
    pub set: Rows,
    pub undecided: Undecided,
    ghost is_set: { set ≡ with_decisions net.now rows.now path.now },
    ghost sized: { IsSized net.now set },
    ghost changes_are: { AreFlags (is_undecided_change net.now rows.now path.now) (length net.now.activities) undecided.changes.items },
    ghost pairs_are: { AreFlags (is_undecided_pair net.now rows.now path.now) (length net.now.pairs) undecided.pairs.items },
}

impl<'a> Relaxation<'a> {
    /// The relaxed problem of the path.
    pub fn new(
        alloc: Global,
        net: &'a Network,
        rows: &'a Rows,
        path: &'a [Decision],
    ) -> Result<Relaxation<'a>, AllocError>
        requires sized { IsSized net.now rows.now }
        requires list { IsChoiceList net.now rows.now path.now }
        ensures net { IfOk result (λ r. r.net.now ≡ net.now) }
        ensures rows { IfOk result (λ r. r.rows.now ≡ rows.now) }
        ensures path { IfOk result (λ r. r.path.now ≡ path.now) }
    {
        net.reveal();
        let mut undecided = all_undecided(alloc, net, rows)?;
        for decision in path {
            undecided.set(flip_of(net, rows, *decision), false);
        }
        Ok(Relaxation {
            net,
            rows,
            path,
            set: with_decisions(net, rows, path)?,
            undecided,
        })
    }

    /// Whether the activity belongs to a choice that is undecided.
    fn is_of_undecided(&self, a: usize) -> bool
        requires { a < length self.now.net.now.activities }
        ensures { result ≡ is_of_undecided self.now.net.now self.now.rows.now self.now.path.now a (activity_at self.now.net.now a).pair }
    {
        self.net.reveal();
        match self.net.activity(a).pair {
            None => self.undecided.changes[a],
            Some(p) => self.undecided.pairs[p],
        }
    }
}

impl Holding for Relaxation<'_> {
    ghost use Rattle.std.specs.Prelude.{length};
    ghost use Rattle.dm_rows.specs.Relax.{is_relaxed_active};

    ghost places = { λ r. length r.net.now.activities };

    ghost held = { λ r. is_relaxed_active r.net.now r.rows.now r.path.now };

    fn is_held(&self, a: usize) -> bool {
        if self.is_of_undecided(a) {
            return false;
        }
        is_active(self.net, &self.set, a)
    }
}

impl Charging for Relaxation<'_> {
    ghost use Rattle.dm_rows.specs.Relax.{is_relaxed_lost};

    ghost charged = { λ r. is_relaxed_lost r.net.now r.rows.now r.path.now };

    fn is_charged(&self, a: usize) -> bool {
        let as_set = AsRowsSay {
            net: self.net,
            rows: &self.set,
        };
        as_set.is_charged(a) && !self.undecided.changes[a]
    }
}
