//! Which activities a timetable is held to, and which its cost charges for.
ghost use Rattle.std.specs.Prelude.{◌≡◌, ◌<◌, length};
ghost use Rattle.dm_rows.specs.Rows.{IsSized};
ghost use Rattle.dm_rows.specs.Active.{is_active};
ghost use Rattle.dm_rows.specs.Cost.{is_lost_change};

use dm_network::Network;
use dm_rows::{Rows, is_active, is_lost_change};

/// Which activities of a network a timetable is held to.
pub trait Holding {
    ghost use Rattle.std.specs.Prelude.{ℕ, Bool};

    /// How many activities it is of.
    ghost places: { Self → ℕ };

    /// Whether it holds the activity at a place.
    ghost held: { Self → ℕ → Bool };

    /// Whether the activity at this place is held.
    fn is_held(&self, a: usize) -> bool
        requires { a < places self.now }
        ensures { result ≡ held self.now a };
}

/// And which of them a cost charges the penalty for.
pub trait Charging: Holding {
    ghost use Rattle.std.specs.Prelude.{ℕ, Bool};

    /// Whether it charges for the activity at a place.
    ghost charged: { Self → ℕ → Bool };

    /// Whether the activity at this place is charged for.
    fn is_charged(&self, a: usize) -> bool
        requires { a < Self.places self.now }
        ensures { result ≡ charged self.now a };
}

/// What rows say by themselves: the active activities are held, and the lost changes are charged for.
#[derive(Clone, Copy)]
pub struct AsRowsSay<'a> {
    pub net: &'a Network,
    pub rows: &'a Rows,
    ghost sized: { IsSized net.now rows.now },
}

impl Holding for AsRowsSay<'_> {
    ghost use Rattle.std.specs.Prelude.{length};
    ghost use Rattle.dm_rows.specs.Active.{is_active};

    ghost places = { λ d. length d.net.now.activities };

    ghost held = { λ d. is_active d.net.now d.rows.now };

    fn is_held(&self, a: usize) -> bool {
        is_active(self.net, self.rows, a)
    }
}

impl Charging for AsRowsSay<'_> {
    ghost use Rattle.dm_rows.specs.Cost.{is_lost_change};

    ghost charged = { λ d. is_lost_change d.net.now d.rows.now };

    fn is_charged(&self, a: usize) -> bool {
        is_lost_change(self.net, self.rows, a)
    }
}
