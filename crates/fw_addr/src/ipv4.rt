//! The texts of IPv4 addresses.
ghost use Rattle.std.specs.Prelude.{◌≡◌, ◌≤◌, IfSome};
ghost use Rattle.fw_text.specs.Number.{number_to};
ghost use Rattle.fw_addr.specs.Addresses.{ipv4};

use fw_text::{cut, read_number};
use std::fmt;

/// Reads four decimal numbers up to 255 without leading zeros, joined by dots.
pub fn read_ipv4(text: &[u8]) -> Option<u32>
    ensures { result ≡ ipv4 text.now }
{
    let first = cut(b'.', text);
    let second = cut(b'.', first.rest?);
    let third = cut(b'.', second.rest?);
    let fourth = cut(b'.', third.rest?);
    if fourth.rest.is_some() {
        return None;
    }
    let a = read_octet(first.piece)?;
    let b = read_octet(second.piece)?;
    let c = read_octet(third.piece)?;
    let d = read_octet(fourth.piece)?;
    Some(((a * 256 + b) * 256 + c) * 256 + d)
}

fn read_octet(text: &[u8]) -> Option<u32>
    ensures value { result ≡ number_to 255 text.now }
    ensures bound { IfSome result (λ octet. octet ≤ 255) }
{
    let octet = read_number(text, u64::from(u8::MAX))?;
    Some(octet as u32)
}

/// The text of an address: four decimal numbers joined by dots.
#[derive(Clone, Copy)]
pub struct Dotted(pub u32);

impl fmt::Display for Dotted {
    ghost use Rattle.std.specs.Prelude.{Some};
    ghost use Rattle.fw_addr.specs.Canonical.{ipv4_text};

    ghost output = { λ dotted. Some (ipv4_text dotted.0) };

    fn fmt<W: fmt::Write>(&self, f: &mut fmt::Formatter<W>) -> fmt::Result {
        let number = self.0;
        let a = number >> 24;
        let b = (number >> 16) % 256;
        let c = (number >> 8) % 256;
        let d = number % 256;
        write!(f, "{a}.{b}.{c}.{d}")
    }
}
