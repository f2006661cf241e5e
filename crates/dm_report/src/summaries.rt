//! The summary of a generated day in print.
ghost use Rattle.dm_outside.specs.Printing.{Prints, Puts};
ghost use Rattle.dm_report.specs.Summaries.{summary_text};

use crate::words::put_labelled;
use dm_base::Cost;
use dm_outside::{Page, Sink, WriteFault};

/// What a generated day comes to after its feed.
#[derive(Clone, Copy)]
pub struct Summary {
    /// Events of the network.
    pub events: u64,

    /// Activities of the network.
    pub activities: u64,

    /// Choices that are free after the feed.
    pub choices: u64,

    /// Entries of the history.
    pub entries: u64,

    /// The cost, in thousandths of passenger seconds.
    pub cost: Cost,

    /// The sum of all times, in seconds.
    pub sum: u128,
}

#[tactic(auto, unfolding(crate::specs::Summaries::summary_text))]
fn put_summary<K: Sink>(sink: &mut K, page: &mut Page, summary: &Summary) -> Result<(), WriteFault>
    ensures { Prints K.taken K.faults sink.old sink.new page.old page.new result (summary_text summary.now) }
{
    let numbers = [
        ("dm-gen 1\nevents ", summary.events as u128),
        ("\nactivities ", summary.activities as u128),
        ("\nchoices ", summary.choices as u128),
        ("\nentries ", summary.entries as u128),
        ("\ncost ", summary.cost),
        ("\nsum ", summary.sum),
    ];
    put_labelled(sink, page, &numbers, "\n")
}

/// Writes the seven lines of the summary. It takes no memory. A write fault comes only where a write failed; the sink has
/// then taken a front of the lines, and not all of them.
pub fn write_summary<K: Sink>(summary: &Summary, sink: &mut K) -> Result<(), WriteFault>
    ensures { Puts K.taken K.faults sink.old sink.new result (summary_text summary.now) }
{
    let mut page = Page::new();
    let Ok(()) = put_summary(sink, &mut page, summary) else {
        return Err(WriteFault);
    };
    page.finish(sink)
}
