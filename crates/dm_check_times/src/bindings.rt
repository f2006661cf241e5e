//! What binds between the events of a network.
ghost use Rattle.dm_check_times.specs.Binding.{AreBindings};

use dm_base::Secs;
use dm_network::Network;

/// Which activities of a network are held, and the spans of all, in seconds.
#[derive(Clone, Copy)]
pub(crate) struct Bindings<'b> {
    pub net: &'b Network,
    pub held: &'b [bool],
    pub spans: &'b [Secs],
    ghost are: { AreBindings net.now held.now spans.now },
}
