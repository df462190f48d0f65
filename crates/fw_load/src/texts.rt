//! Readers of texts that give nothing for what they refuse.
ghost use Rattle.std.specs.Prelude.{◌≡◌};
ghost use Rattle.fw_load.specs.Values.{hardware, host, network, protocol};

use fw_addr::{Addr, Mac, Net, Proto, read_addr, read_mac, read_net, read_proto};

/// A net.
#[tactic(auto, unfolding(crate::specs::Values::network))]
pub fn network(text: &str) -> Option<Net>
    ensures { result ≡ network text.now }
{
    read_net(text).ok()
}

/// A hardware address.
#[tactic(auto, unfolding(crate::specs::Values::hardware))]
pub fn hardware(text: &str) -> Option<Mac>
    ensures { result ≡ hardware text.now }
{
    read_mac(text).ok()
}

/// An address.
#[tactic(auto, unfolding(crate::specs::Values::host))]
pub fn host(text: &str) -> Option<Addr>
    ensures { result ≡ host text.now }
{
    read_addr(text).ok()
}

/// A protocol.
#[tactic(auto, unfolding(crate::specs::Values::protocol))]
pub fn protocol(text: &str) -> Option<Proto>
    ensures { result ≡ protocol text.now }
{
    read_proto(text).ok()
}
