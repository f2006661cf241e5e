//! Changes of an engine, for programs that count no steps.
ghost use Rattle.std.specs.Prelude.{◌≡◌, ◌<◌};
ghost use Rattle.dm_propagate.specs.Engine.{IsEngineOf};
ghost use Rattle.dm_rows.specs.Reach.{Reaches};

use dm_base::Steps;
use dm_graph::search::Cyclic;
use dm_network::Network;
use dm_propagate::Engine;
use dm_rows::Change;
use std::marker::Brand;
use std::sync::ledger::{Blank, Ledger};

/// Makes a change, or shows a cycle. It is the engine's own call, with a ledger that nothing reads.
pub fn update(engine: &mut Engine, net: &Network, change: &Change) -> Result<(), Cyclic>
    requires engine { IsEngineOf net.now engine.old }
    requires reaches { Reaches engine.old.rows change.now }
    ensures { IsEngineOf net.now engine.new }
{
    update_with::<Brand>(engine, net, change, Blank::new(1))
}

fn update_with<L: Ledger>(
    engine: &mut Engine,
    net: &Network,
    change: &Change,
    blank: Blank,
) -> Result<(), Cyclic>
    requires engine { IsEngineOf net.now engine.old }
    requires reaches { Reaches engine.old.rows change.now }
    requires name { blank.name ≡ L.name }
    requires parts { blank.parts ≡ L.parts }
    requires has_a_part { 0 < blank.parts }
    ensures { IsEngineOf net.now engine.new }
{
    let mut steps = Steps::<L>::new(blank);
    engine.update(net, change, &mut steps)
}
