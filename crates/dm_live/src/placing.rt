//! Marks of events, moved to the places of the events in an order.
ghost use Rattle.std.specs.Prelude.{◌≡◌, length};
ghost use Rattle.dm_marks.specs.Marked.{NoneFrom};
ghost use Rattle.dm_live.specs.Inside.Placing.{ArePlaced, IsClear};
ghost use Rattle.dm_graph.specs.Arrays.{AreRanks};

use dm_marks::Marks;

/// Brings the marks of the events that are not fixed to their places in the order, and takes the others away. It looks at the
/// marked events alone.
pub fn place_marks(
    marks: &mut Marks,
    fixed: &[bool],
    order: &[usize],
    ranks: &[usize],
    placed: &mut Marks,
)
    requires ranks { AreRanks (length marks.old) order.now ranks.now }
    requires as_many { length fixed.now ≡ length marks.old }
    requires clear { IsClear (length marks.old) placed.old }
    ensures placed { ArePlaced (length marks.old) ranks.now marks.old fixed.now placed.new }
    ensures room { length marks.new ≡ length marks.old }
    ensures none_left { NoneFrom marks.new 0 }
{
    let _events = order.len();
    let mut from = 0;
    while let Some(event) = marks.first_from(from) {
        marks.clear(event);
        if !fixed[event] {
            placed.mark(ranks[event]);
        }
        from = event + 1;
    }
}
