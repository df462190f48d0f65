//! Where a packet is sent in place of its destination.
use super::Addr;
use std::fmt;

/// The address, the port or both that a packet's destination becomes.
#[derive(Clone, Copy, Debug, PartialEq, Eq)]
pub struct Dnat {
    pub addr: Option<Addr>,
    pub port: Option<u16>,
}

impl fmt::Display for Dnat {
    ghost use Rattle.std.specs.Prelude.{Some};
    ghost use Rattle.fw_addr.specs.Targets.{target_text};

    ghost output = { λ dnat. Some (target_text dnat) };

    /// The address, one of IPv6 in brackets, and behind a `:` the port, as far as they are there.
    fn fmt<W: fmt::Write>(&self, f: &mut fmt::Formatter<W>) -> fmt::Result {
        match self.addr {
            None => {}
            Some(Addr::V4(number)) => write!(f, "{}", Addr::V4(number))?,
            Some(Addr::V6(number)) => write!(f, "[{}]", Addr::V6(number))?,
        }
        match self.port {
            None => Ok(()),
            Some(port) => write!(f, ":{port}"),
        }
    }
}
