//! What holds of every order. A law has no code: it is proved as the contract of an empty function.
ghost use Rattle.dm_graph.specs.Arcs.{IsOrder};
ghost use Rattle.dm_network.specs.Net.{Net};
ghost use Rattle.dm_network.specs.Held.{arcs_of, is_held, HasNoCycleOf};
ghost use Rattle.dm_order.specs.Orders.{IsOrderOf};
ghost use Rattle.dm_order.specs.Value.{OrderValue};

/// An order lists every event of its network once, the tail of each held activity before its head.
pub fn lists_every_event()
    ensures { (net : Net) (order : OrderValue) → IsOrderOf net order → IsOrder (arcs_of net (is_held order.held)) order.order }
{}

/// The activities that an order holds have no cycle.
pub fn held_have_no_cycle()
    ensures { (net : Net) (order : OrderValue) → IsOrderOf net order → HasNoCycleOf net (is_held order.held) }
{}
