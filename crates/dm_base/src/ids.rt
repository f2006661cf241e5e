//! Names of things in files, and units of numbers.

/// The number of an event in a file.
#[derive(Clone, Copy, PartialEq, Eq, PartialOrd, Ord, Debug)]
pub struct EventId(pub u32);

/// The number of an activity in a file.
#[derive(Clone, Copy, PartialEq, Eq, PartialOrd, Ord, Debug)]
pub struct ActId(pub u32);

/// The number of a stop in a file.
#[derive(Clone, Copy, PartialEq, Eq, PartialOrd, Ord, Debug)]
pub struct StopId(pub u32);

/// A time or a span of time, in seconds.
pub type Secs = u64;

/// A weight in thousandths of passengers.
pub type Milli = u64;

/// A cost in thousandths of passenger seconds.
pub type Cost = u128;
