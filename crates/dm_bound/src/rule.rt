//! The rule under which the word changes, and what each kind of step tells.
use crate::view::View;
use atomic_table::{Join, Play, Seat, Shared, Split, TableRule};

/// What a table is told when it is made: the value at which the word starts, and how many seats there are.
#[derive(Drop)]
pub struct About {
    pub start: u64,
    pub seats: u64,
}

/// The rule of the word.
pub struct Least;

impl TableRule<u64, View, About> for Least {
    ghost use Rattle.dm_bound.specs.Rule.{Rule};
    ghost use Rattle.dm_bound.specs.Inside.Steps.{opening_view};

    ghost holds = { λ about. Rule about.start about.seats };

    ghost first = { λ about. opening_view about.start about.seats };
}

/// The word is lowered.
pub struct Lower;

impl Play<u64, View> for Lower {
    ghost use Rattle.dm_bound.specs.Inside.Steps.{Lowered};

    ghost then = { Lowered };
}

/// The word is looked at.
pub struct Look;

impl Play<u64, View> for Look {
    ghost use Rattle.dm_bound.specs.Inside.Steps.{Looked};

    ghost then = { Looked };
}

/// A hand is cut off from another.
pub struct Cut;

impl Split<View> for Cut {
    ghost use Rattle.dm_bound.specs.Inside.Steps.{left_over, cut_off};

    ghost left = { left_over };

    ghost right = { cut_off };
}

/// Two hands are made one.
pub struct Glue;

impl Join<View> for Glue {
    ghost use Rattle.dm_bound.specs.Inside.Steps.{joined};
    ghost use Rattle.dm_bound.specs.Rule.{spent};

    ghost both = { joined };

    ghost spent = { spent };
}

/// The word as its hands share it.
pub type SharedWord = Shared<u64, View, About, Least>;

/// A seat at the word.
pub type WordSeat = Seat<u64, View>;
