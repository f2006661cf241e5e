//! What follows from the definitions alone: each function here does nothing, and its clause is the law.
ghost use Rattle.dm_gen.specs.Laws.{FirstOfSeven, Sizes};
ghost use Rattle.dm_gen.specs.Sound.{RecordsAreWithinLimits, RecordsMakeNetwork, FeedDelaysEvents};

/// The first draw from 7, and the first line that it makes of 2,000 trains.
pub fn first_of_seven()
    ensures { FirstOfSeven }
{}

/// How many events, activities and lines there are for any number of trains.
pub fn sizes_of_lists()
    ensures { Sizes }
{}

/// The numbers of the records are within the limits of a network.
pub fn records_are_within_limits()
    ensures { RecordsAreWithinLimits }
{}

/// Nothing but want of memory refuses the records: they make a network, which has no cycle at the start.
pub fn records_make_network()
    ensures { RecordsMakeNetwork }
{}

/// Each line of the feed delays an event of that network by at most 900 seconds.
pub fn feed_delays_events()
    ensures { FeedDelaysEvents }
{}
