//! Laws of ranges: where a translation sends packets, a header can say. Each function is a law, and its clause all of it.
ghost use Rattle.std.specs.Prelude.{◌<◌, ◌^◌};
ghost use Rattle.fw_model.specs.Packets.{IsAddress};
ghost use Rattle.fw_valid.specs.Each.{IfThere};
ghost use Rattle.lower_outside.specs.Steps.{IsTarget};

use fw_addr::{Addr, Dnat};

fn address_fits(address: Option<Addr>)
    ensures { IfThere IsAddress address }
{
    match address {
        None => {}
        Some(Addr::V4(number)) => prove!(number <= u32::MAX),
        Some(Addr::V6(number)) => prove!(number <= u128::MAX),
    }
}

fn port_fits(port: Option<u16>)
    ensures { IfThere (λ number. number < 2 ^ 16) port }
{
    match port {
        None => {}
        Some(number) => prove!(number <= u16::MAX),
    }
}

/// The address and the port of a translation are numbers that a header can have.
pub fn target_fits(dnat: Dnat)
    ensures { IsTarget dnat }
{
    address_fits(dnat.addr);
    port_fits(dnat.port);
}
