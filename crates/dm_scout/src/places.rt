//! Places that take half the room.

/// A place, or none. A place that has no room is none.
#[derive(Clone, Copy, PartialEq, Eq)]
pub struct Place {
    short: u32,
}

/// No place.
pub const NOWHERE: Place = Place { short: u32::MAX };

impl Place {
    pub fn of(place: usize) -> Place {
        match u32::try_from(place) {
            Ok(short) => Place { short },
            Err(_) => NOWHERE,
        }
    }

    pub fn of_any(place: Option<usize>) -> Place {
        match place {
            Some(place) => Place::of(place),
            None => NOWHERE,
        }
    }

    pub fn get(self) -> Option<usize> {
        if self.short == u32::MAX {
            None
        } else {
            Some(self.short as usize)
        }
    }

    /// The place, or the last that there can be.
    pub fn index(self) -> usize {
        self.short as usize
    }
}
