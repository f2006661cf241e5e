//! A set of places.
ghost use Rattle.std.specs.Prelude.{ℕ, ◌≡◌, ◌<◌, true, false, [], length, replicate, slice_set, All, Contains, IfOk};
ghost use Rattle.dm_marks.specs.Marked.{is_marked};
ghost use Rattle.dm_marks.specs.Places.{IsPlaceSet};

use std::alloc::{AllocError, Global};
use std::marker::Model;

/// Some of so many places, listed in the order in which they came.
pub struct PlaceSet {
    flags: Vec<bool>,

    /// The places that are in. It has room for every place.
    places: Vec<usize>,
}

impl Drop for PlaceSet {
    fn drop(self) {
        let PlaceSet {
            flags: _,
            places: _,
        } = self;
    }
}

impl Model for PlaceSet {
    ghost use Rattle.std.specs.Prelude.{◌≤◌, length, vec_capacity};
    ghost use Rattle.dm_marks.specs.Places.{PlaceSetValue};
    ghost use Rattle.dm_marks.specs.Inside.Listing.{IsListed};

    ghost Value = { PlaceSetValue };

    ghost view = { λ s. record { flags = s.flags.items; places = s.places.items } };

    ghost invariant = { λ s. IsListed s.flags.items s.places.items × (length s.flags.items ≤ vec_capacity s.places) };
}

impl PlaceSet {
    /// The empty set of so many places.
    #[tactic(auto, using(crate::proofs::Listing::none_listed))]
    pub fn new(alloc: Global, places: usize) -> Result<PlaceSet, AllocError>
        ensures { IfOk result (λ set. set ≡ record { flags = replicate places false; places = [] }) }
    {
        let flags = vec![in alloc; false; places]?;
        let places = Vec::with_capacity(alloc, places)?;
        Ok(PlaceSet { flags, places })
    }

    /// Puts a place in, where it is not in already. It takes no memory.
    #[tactic(auto, using(crate::proofs::Listing::room_for, crate::proofs::Listing::listed, crate::proofs::Listing::set_again))]
    pub fn insert(&mut self, place: usize)
        requires { place < length self.old.flags }
        ensures { self.new.flags ≡ slice_set self.old.flags place true }
    {
        if !self.flags[place] {
            self.flags[place] = true;
            self.places.push_reserved(place);
        }
    }

    /// The places that are in.
    pub fn places(&self) -> &[usize]
        ensures { result.now ≡ self.now.places }
    {
        self.places.as_slice()
    }

    /// What is known of a set.
    #[tactic(auto, using(crate::proofs::Listing::is_place_set))]
    pub fn reveal(&self)
        ensures { IsPlaceSet self.now }
    {
        let _read = self.flags.len();
    }

    /// Takes every place out. It costs the places that are in.
    #[tactic(auto, using(crate::proofs::Listing::none_listed, crate::proofs::Listing::listed_within))]
    pub fn clear(&mut self)
        ensures { self.new ≡ record { flags = replicate (length self.old.flags) false; places = [] } }
    {
        clear_at(&mut self.flags, &self.places);
        self.places.clear();
    }
}

/// Takes the flags at the places away that have one.
fn clear_at(flags: &mut [bool], places: &[usize])
    requires within { All (λ place. place < length flags.old) places.now }
    requires each { (place : ℕ) → is_marked flags.old place ≡ true → Contains places.now place }
    ensures { flags.new ≡ replicate (length flags.old) false }
{
    for place in places {
        flags[*place] = false;
    }
}
