//! Ids and values.
ghost use Rattle.std.specs.Prelude.{◌≡◌};
ghost use Rattle.dm_feed.specs.Parts.{largest_id, largest_value};
ghost use Rattle.dm_feed.specs.Inside.Reading.{number_up_to};

use dm_base::read_whole;

/// The largest id of an event or an activity.
const LARGEST_ID: u64 = 4_294_967_295;

/// The id that the text writes.
pub(crate) fn id_of(text: &[u8]) -> Option<u32>
    ensures { result ≡ number_up_to largest_id text.now }
{
    match read_whole(text) {
        Ok(number) if number <= LARGEST_ID => Some(number as u32),
        _ => None,
    }
}

/// The value that the text writes.
pub(crate) fn value_of(text: &[u8]) -> Option<u64>
    ensures { result ≡ number_up_to largest_value text.now }
{
    match read_whole(text) {
        Ok(number) => Some(number),
        Err(_) => None,
    }
}
