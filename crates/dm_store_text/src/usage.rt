//! The words that a server is asked with.
ghost use Rattle.dm_store_text.specs.Written.{EndsAs};
ghost use Rattle.dm_store_text.specs.Lines.{server_usage_line};

use crate::status::Status;
use dm_outside::{Sink, WriteFault, put_all};

/// Says which words behind `serve` and `text` are in form.
pub fn end_server_usage<K: Sink>(out: &mut K) -> Status
    ensures { EndsAs K.taken K.faults out.old out.new server_usage_line Status.Usage result }
{
    match put_all(
        out,
        b"usage: serve DIR STORE FEED.. | text DIR STORE FEED..\n",
    ) {
        Ok(()) => Status::Usage,
        Err(WriteFault) => Status::WriteFault,
    }
}
