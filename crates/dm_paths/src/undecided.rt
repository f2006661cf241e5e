//! Which changes and which pairs a path leaves undecided.
ghost use Rattle.std.specs.Prelude.{◌≡◌, ◌<◌};
ghost use Rattle.dm_paths.specs.Flags.{is_flagged, with_change, with_pair, HasRoomFor};
ghost use Rattle.dm_paths.specs.Places.{at_place, HasFlagFor};

use crate::places::ChoicePlace;
use dm_rows::Flip;

/// A flag for each activity, whether it is a change that is undecided, and one for each pair, whether it is.
pub struct Undecided {
    pub changes: Vec<bool>,
    pub pairs: Vec<bool>,
}

impl Drop for Undecided {
    fn drop(self) {
        let Undecided {
            changes: _,
            pairs: _,
        } = self;
    }
}

impl Undecided {
    /// Whether the choice at a place is undecided.
    pub fn is(&self, place: ChoicePlace) -> bool
        requires { HasFlagFor place self.now.changes.items self.now.pairs.items }
        ensures { result ≡ at_place (is_flagged self.now.changes.items) (is_flagged self.now.pairs.items) place }
    {
        match place {
            ChoicePlace::Change(a) => self.changes[a],
            ChoicePlace::Pair(p) => self.pairs[p],
        }
    }

    /// The change or the pair of a flip is undecided, or decided.
    pub fn set(&mut self, flip: Flip, undecided: bool)
        requires { HasRoomFor flip self.old.changes.items self.old.pairs.items }
        ensures changes { self.new.changes.items ≡ with_change flip undecided self.old.changes.items }
        ensures pairs { self.new.pairs.items ≡ with_pair flip undecided self.old.pairs.items }
    {
        match flip {
            Flip::Keep { act } | Flip::Drop { act } => self.changes[act] = undecided,
            Flip::First { pair, .. } => self.pairs[pair] = undecided,
        }
    }
}
