//! What each kind of value is, by its text.
ghost use Rattle.fw_model.specs.Packets.{IsAddress};

use super::links::{read_link, read_via};
use super::value::Value;
use fw_addr::{
    Addr, CtState, Limit, Mac, Net, PktType, Proto, read_addr, read_mac, read_net, read_proto,
};
use fw_base::Text;
use fw_limit::read_limit;
use fw_model::{Origin, Via};
use fw_text::read_number;
use fw_words::LineError;
use std::alloc::Global;

impl Value for Origin {
    ghost use Rattle.std.specs.Prelude.{IsTrue};
    ghost use Rattle.fw_model.specs.Packets.{has_plain_link};
    ghost use Rattle.fw_packet.specs.Links.{origin};

    ghost reading = { origin };

    ghost in_range = { λ origin. IsTrue (has_plain_link origin) };

    fn read(alloc: Global, text: &str) -> Result<Origin, LineError> {
        let name = read_link(text)?;
        Ok(Origin::Link(Text::of(alloc, name)?))
    }
}

impl Value for Addr {
    ghost use Rattle.fw_addr.specs.Addresses.{address};
    ghost use Rattle.fw_model.specs.Packets.{IsAddress};

    ghost reading = { address };

    ghost in_range = { IsAddress };

    fn read(_alloc: Global, text: &str) -> Result<Addr, LineError> {
        let Ok(found) = read_addr(text) else {
            return Err(LineError::BadLine);
        };
        address_fits(&found);
        Ok(found)
    }
}

impl Value for Proto {
    ghost use Rattle.std.specs.Prelude.{◌<◌, ◌^◌};
    ghost use Rattle.fw_addr.specs.Protocols.{proto};

    ghost reading = { proto };

    ghost in_range = { λ number. number < 2 ^ 8 };

    fn read(_alloc: Global, text: &str) -> Result<Proto, LineError> {
        let Ok(protocol) = read_proto(text) else {
            return Err(LineError::BadLine);
        };
        let _number = protocol.0;
        Ok(protocol)
    }
}

impl Value for Mac {
    ghost use Rattle.std.specs.Prelude.{◌<◌, ◌^◌};
    ghost use Rattle.fw_addr.specs.Hardware.{mac};

    ghost reading = { mac };

    ghost in_range = { λ number. number < 2 ^ 48 };

    fn read(_alloc: Global, text: &str) -> Result<Mac, LineError> {
        match read_mac(text) {
            Ok(address) => Ok(Mac(address.0)),
            Err(_) => Err(LineError::BadLine),
        }
    }
}

impl Value for u8 {
    ghost use Rattle.std.specs.Prelude.{◌<◌, ◌^◌};
    ghost use Rattle.fw_text.specs.Number.{number_to};

    ghost reading = { number_to 255 };

    ghost in_range = { λ number. number < 2 ^ 8 };

    fn read(_alloc: Global, text: &str) -> Result<u8, LineError> {
        match read_number(text.as_bytes(), 255) {
            Some(number) => Ok(number as u8),
            None => Err(LineError::BadLine),
        }
    }
}

impl Value for u16 {
    ghost use Rattle.std.specs.Prelude.{◌<◌, ◌^◌};
    ghost use Rattle.fw_text.specs.Number.{number_to};

    ghost reading = { number_to 65535 };

    ghost in_range = { λ number. number < 2 ^ 16 };

    fn read(_alloc: Global, text: &str) -> Result<u16, LineError> {
        match read_number(text.as_bytes(), 65_535) {
            Some(number) => Ok(number as u16),
            None => Err(LineError::BadLine),
        }
    }
}

impl Value for u32 {
    ghost use Rattle.std.specs.Prelude.{◌<◌, ◌^◌};
    ghost use Rattle.fw_text.specs.Number.{number_to};

    ghost reading = { number_to 4294967295 };

    ghost in_range = { λ number. number < 2 ^ 32 };

    fn read(_alloc: Global, text: &str) -> Result<u32, LineError> {
        match read_number(text.as_bytes(), 4_294_967_295) {
            Some(number) => Ok(number as u32),
            None => Err(LineError::BadLine),
        }
    }
}

/// Of a word without a value: that it is there.
impl Value for bool {
    ghost use Rattle.std.specs.Prelude.{⊤};
    ghost use Rattle.fw_packet.specs.PacketWords.{given};

    ghost reading = { given };

    ghost in_range = { λ _. ⊤ };

    fn read(_alloc: Global, text: &str) -> Result<bool, LineError> {
        if text.is_empty() {
            Ok(true)
        } else {
            Err(LineError::BadLine)
        }
    }
}

impl Value for CtState {
    ghost use Rattle.std.specs.Prelude.{⊤};
    ghost use Rattle.fw_text.specs.Names.{named};
    ghost use Rattle.fw_packet.specs.PacketWords.{states};

    ghost reading = { named states };

    ghost in_range = { λ _. ⊤ };

    fn read(_alloc: Global, text: &str) -> Result<CtState, LineError> {
        match text {
            "new" => Ok(CtState::New),
            "established" => Ok(CtState::Established),
            "related" => Ok(CtState::Related),
            "invalid" => Ok(CtState::Invalid),
            _ => Err(LineError::BadLine),
        }
    }
}

impl Value for PktType {
    ghost use Rattle.std.specs.Prelude.{⊤};
    ghost use Rattle.fw_text.specs.Names.{named};
    ghost use Rattle.fw_packet.specs.PacketWords.{packet_types};

    ghost reading = { named packet_types };

    ghost in_range = { λ _. ⊤ };

    fn read(_alloc: Global, text: &str) -> Result<PktType, LineError> {
        match text {
            "unicast" => Ok(PktType::Unicast),
            "broadcast" => Ok(PktType::Broadcast),
            "multicast" => Ok(PktType::Multicast),
            _ => Err(LineError::BadLine),
        }
    }
}

impl Value for Limit {
    ghost use Rattle.std.specs.Prelude.{◌<◌, ◌^◌};
    ghost use Rattle.fw_limit.specs.Limits.{limit};

    ghost reading = { limit };

    ghost in_range = { λ limit. limit.count < 2 ^ 16 };

    fn read(_alloc: Global, text: &str) -> Result<Limit, LineError> {
        match read_limit(text) {
            Some(limit) => Ok(limit),
            None => Err(LineError::BadLine),
        }
    }
}

impl Value for Net {
    ghost use Rattle.fw_addr.specs.Nets.{net};
    ghost use Rattle.fw_model.specs.Packets.{IsNet};

    ghost reading = { net };

    ghost in_range = { IsNet };

    fn read(_alloc: Global, text: &str) -> Result<Net, LineError> {
        let Ok(found) = read_net(text) else {
            return Err(LineError::BadLine);
        };
        address_fits(&found.addr());
        let _prefix = found.prefix();
        Ok(found)
    }
}

impl Value for (Net, Via) {
    ghost use Rattle.fw_model.specs.Packets.{IsNet};
    ghost use Rattle.fw_packet.specs.Links.{route};

    ghost reading = { route };

    ghost in_range = { λ route. IsNet route.0 };

    fn read(alloc: Global, text: &str) -> Result<(Net, Via), LineError> {
        let Some((to, by)) = text.split_once(',') else {
            return Err(LineError::BadLine);
        };
        let via = read_via(alloc, by)?;
        let net = Net::read(alloc, to)?;
        Ok((net, via))
    }
}

/// An address is a number of as many bits as its family has. This is a law: its clause is all of it.
fn address_fits(addr: &Addr)
    ensures { IsAddress addr.now }
{
    match *addr {
        Addr::V4(number) => prove!(number <= u32::MAX),
        Addr::V6(number) => prove!(number <= u128::MAX),
    }
}
