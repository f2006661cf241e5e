//! What is claimed of a message that is refused.
ghost use Rattle.dm_rows.specs.Rows.{IsSized};
ghost use Rattle.dm_check_rows.specs.Claims.{IsKnownFree};

use dm_network::Network;
use dm_rows::{Message, Refusal, Rows};

/// What is claimed: that rows, which may be known to have no cycle, refuse a message at so many entries for this reason.
#[derive(Clone, Copy)]
pub(crate) struct ClaimedRefusal<'c> {
    pub net: &'c Network,
    pub rows: &'c Rows,
    pub is_free: bool,
    pub entries: u32,
    pub message: &'c Message,
    pub why: &'c Refusal,
    ghost sized: { IsSized net.now rows.now },
    ghost free: { IsKnownFree net.now rows.now is_free },
}
