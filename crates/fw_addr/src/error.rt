//! Why a text is refused.
use std::error::Error;
use std::fmt;

/// What a text was to be and isn't.
#[derive(Clone, Copy, Debug, PartialEq, Eq)]
pub enum AddrError {
    /// An address, a net or a hardware address.
    InvalidAddr,
    /// A port or a range of ports.
    InvalidPort,
    /// A protocol.
    InvalidProtocol,
    /// An interface.
    InvalidInterface,
}

impl fmt::Display for AddrError {
    fn fmt<W: fmt::Write>(&self, f: &mut fmt::Formatter<W>) -> fmt::Result {
        f.write_str(match self {
            AddrError::InvalidAddr => "no address",
            AddrError::InvalidPort => "no port or range of ports",
            AddrError::InvalidProtocol => "no protocol",
            AddrError::InvalidInterface => "no interface",
        })
    }
}

impl Error for AddrError {}
