//! The rule under which the words and the slot of a turn change, and what each kind of step tells.
ghost use Rattle.std.specs.Prelude.{List, []};
ghost use Rattle.dm_rows.specs.declared.messages.Entry.{Entry as AnEntry};
ghost use Rattle.dm_turn.specs.Rule.{Rule, spent};
ghost use Rattle.dm_turn.specs.Inside.Steps.{Drew, Looked, Glanced, Added, Gave, Settled, opening_view, left_over, cut_off, joined};

use crate::state::HasHistory;
use crate::view::View;
use atomic_table::{Join, Play, Seat, Shared, Split, TableRule};
use std::marker::{Brand, PhantomData};
use std::snapshot::Snapshot;

/// What a table is told when it is made: the state, and how many seats there are.
#[derive(Drop)]
pub struct About<S> {
    pub opened: Snapshot<S>,
    pub seats: u64,
}

/// The rule of the lock.
pub struct Lock;

impl<S: HasHistory> TableRule<Option<S>, View<S::Base>, About<S>> for Lock {
    ghost holds = { λ about. Rule S.history S.base about.opened.value about.seats };

    ghost first = { λ about. opening_view S.history S.base about.opened.value about.seats };
}

/// A ticket is drawn.
pub struct Draw;

impl<S: HasHistory> Play<Option<S>, View<S::Base>> for Draw {
    ghost then = { Drew };
}

/// A look at which ticket is served.
pub struct Look;

impl<S: HasHistory> Play<Option<S>, View<S::Base>> for Look {
    ghost then = { Looked S.history S.base };
}

/// A look at a word that tells its number and nothing else.
pub struct Glance;

impl<S: HasHistory> Play<Option<S>, View<S::Base>> for Glance {
    ghost then = { Glanced };
}

/// The history that an addition leaves. Each call picks it.
pub trait Told {
    ghost history: { List AnEntry };
}

impl Told for Brand {
    ghost history = { [] };
}

/// An entry is counted.
pub struct Add<T> {
    of: PhantomData<T>,
}

impl<S: HasHistory, T: Told> Play<Option<S>, View<S::Base>> for Add<T> {
    ghost then = { Added T.history };
}

/// The next ticket is served.
pub struct Serve;

impl<S: HasHistory> Play<Option<S>, View<S::Base>> for Serve {
    ghost then = { Gave };
}

/// After a join: the two histories are compared.
pub struct Settle;

impl<S: HasHistory> Play<Option<S>, View<S::Base>> for Settle {
    ghost then = { Settled };
}

/// A pass is cut off from another.
pub struct Cut;

impl<B> Split<View<B>> for Cut {
    ghost left = { left_over };

    ghost right = { cut_off };
}

/// Two passes are made one.
pub struct Glue;

impl<B> Join<View<B>> for Glue {
    ghost both = { joined };

    ghost spent = { spent };
}

/// The words and the slot of a turn, as its passes share them.
pub type TurnTable<S> = Shared<Option<S>, View<<S as HasHistory>::Base>, About<S>, Lock>;

/// A seat at a turn.
pub type TurnSeat<S> = Seat<Option<S>, View<<S as HasHistory>::Base>>;
