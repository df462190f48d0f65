//! What a rule asks of a packet besides its addresses and ports.
ghost use Rattle.std.specs.Prelude.{◌≡◌};
ghost use Rattle.fw_addr.specs.Names.{family_text, packet_type_text, state_text};

use std::fmt;

/// A family of IP addresses.
#[derive(Clone, Copy, Debug, PartialEq, Eq)]
pub enum Family {
    V4,
    V6,
}

/// The state of the connection that a packet belongs to, as connection tracking tells it.
#[derive(Clone, Copy, Debug, PartialEq, Eq)]
pub enum CtState {
    New,
    Established,
    Related,
    Invalid,
}

/// To whom the link layer addressed a packet.
#[derive(Clone, Copy, Debug, PartialEq, Eq)]
pub enum PktType {
    Unicast,
    Broadcast,
    Multicast,
}

impl Family {
    /// The family's name: `ipv4` or `ipv6`.
    pub fn as_str(self) -> &'static str
        ensures { result.now ≡ family_text self }
    {
        match self {
            Family::V4 => "ipv4",
            Family::V6 => "ipv6",
        }
    }
}

impl fmt::Display for Family {
    ghost use Rattle.std.specs.Prelude.{Some};
    ghost use Rattle.fw_addr.specs.Names.{family_text};

    ghost output = { λ family. Some (family_text family) };

    fn fmt<W: fmt::Write>(&self, f: &mut fmt::Formatter<W>) -> fmt::Result {
        f.write_str(self.as_str())
    }
}

impl CtState {
    /// The state's name in nft(8).
    pub fn as_str(self) -> &'static str
        ensures { result.now ≡ state_text self }
    {
        match self {
            CtState::New => "new",
            CtState::Established => "established",
            CtState::Related => "related",
            CtState::Invalid => "invalid",
        }
    }
}

impl fmt::Display for CtState {
    ghost use Rattle.std.specs.Prelude.{Some};
    ghost use Rattle.fw_addr.specs.Names.{state_text};

    ghost output = { λ state. Some (state_text state) };

    fn fmt<W: fmt::Write>(&self, f: &mut fmt::Formatter<W>) -> fmt::Result {
        f.write_str(self.as_str())
    }
}

impl PktType {
    /// The type's name in nft(8).
    pub fn as_str(self) -> &'static str
        ensures { result.now ≡ packet_type_text self }
    {
        match self {
            PktType::Unicast => "unicast",
            PktType::Broadcast => "broadcast",
            PktType::Multicast => "multicast",
        }
    }
}

impl fmt::Display for PktType {
    ghost use Rattle.std.specs.Prelude.{Some};
    ghost use Rattle.fw_addr.specs.Names.{packet_type_text};

    ghost output = { λ kind. Some (packet_type_text kind) };

    fn fmt<W: fmt::Write>(&self, f: &mut fmt::Formatter<W>) -> fmt::Result {
        f.write_str(self.as_str())
    }
}
