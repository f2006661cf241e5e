//! Listed events, and what was published last.
ghost use Rattle.std.specs.Prelude.{◌≡◌, ◌≤◌, length, vec_len, vec_capacity};
ghost use Rattle.dm_publish.specs.Inside.Changes.{ListsDifferences};

use dm_base::StopId;

/// The place of an event that is looked at, and its stop.
#[derive(Clone, Copy)]
pub(crate) struct Listed {
    pub stop: StopId,
    pub place: usize,
}

/// Keeps values by place in a list that has room for them and has the last ones, which differ at the listed events alone.
pub(crate) fn keep<V: Copy>(last: &mut Vec<V>, values: &[V], listed: &[Listed])
    requires room { length values.now ≤ vec_capacity last.old }
    requires listed { ListsDifferences last.old.items values.now listed.now }
    ensures values { last.new.items ≡ values.now }
    ensures room { vec_capacity last.old ≤ vec_capacity last.new }
{
    if last.len() == values.len() {
        put_values(last, values, listed);
        return;
    }
    last.clear();
    let Ok(()) = last.extend_from_slice(values) else {
        unreachable!();
    };
}

/// Puts the values of the listed events into a list of as many.
fn put_values<V: Copy>(last: &mut Vec<V>, values: &[V], listed: &[Listed])
    requires as_many { vec_len last.old ≡ length values.now }
    requires listed { ListsDifferences last.old.items values.now listed.now }
    ensures values { last.new.items ≡ values.now }
    ensures room { vec_capacity last.old ≤ vec_capacity last.new }
{
    for event in listed {
        last[event.place] = values[event.place];
    }
}
