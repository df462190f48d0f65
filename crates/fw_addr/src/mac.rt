//! Hardware addresses of Ethernet.
ghost use Rattle.std.specs.Prelude.{◌≡◌, ◌≤◌, IfOk, IfSome, Some};
ghost use Rattle.std.specs.Option.{ok_or};
ghost use Rattle.fw_addr.specs.Hardware.{hex_octet, mac, mac_text};

use super::AddrError;
use super::hexadecimal::read_hex;
use super::laws::printed_hardware_addresses_are_read;
use fw_base::{Memory, Text};
use fw_text::cut;
use std::alloc::Global;
use std::fmt;
use std::marker::Model;

/// A hardware address as a number below 2^48, its first octet the most significant. Contracts see the number.
#[derive(Clone, Copy, Debug, PartialEq, Eq)]
pub struct Mac(pub u64);

impl Model for Mac {
    ghost use Rattle.std.specs.Prelude.{ℕ, ◌<◌, ◌^◌};

    ghost Value = { ℕ };

    ghost view = { λ mac. mac.0 };

    ghost invariant = { λ mac. mac.0 < 2 ^ 48 };

    ghost inverse = { λ number. record { 0 = number } };
}

/// Reads a hardware address: six octets of two hexadecimal digits of either case, joined by `:`.
pub fn read_mac(text: &str) -> Result<Mac, AddrError>
    ensures { result ≡ ok_or (mac text.now) AddrError.InvalidAddr }
{
    parse_mac(text.as_bytes()).ok_or(AddrError::InvalidAddr)
}

fn parse_mac(text: &[u8]) -> Option<Mac>
    ensures { result ≡ mac text.now }
{
    let first = cut(b':', text);
    let second = cut(b':', first.rest?);
    let third = cut(b':', second.rest?);
    let fourth = cut(b':', third.rest?);
    let fifth = cut(b':', fourth.rest?);
    let sixth = cut(b':', fifth.rest?);
    if sixth.rest.is_some() {
        return None;
    }
    let a = read_octet(first.piece)?;
    let b = read_octet(second.piece)?;
    let c = read_octet(third.piece)?;
    let d = read_octet(fourth.piece)?;
    let e = read_octet(fifth.piece)?;
    let f = read_octet(sixth.piece)?;
    Some(Mac(((((a * 256 + b) * 256 + c) * 256 + d) * 256 + e) * 256 + f))
}

fn read_octet(text: &[u8]) -> Option<u64>
    ensures value { result ≡ hex_octet text.now }
    ensures bound { IfSome result (λ octet. octet ≤ 255) }
{
    if text.len() != 2 {
        return None;
    }
    let octet = read_hex(text)?;
    Some(u64::from(octet))
}

impl fmt::Display for Mac {
    ghost use Rattle.std.specs.Prelude.{Some};
    ghost use Rattle.fw_addr.specs.Hardware.{mac_text};

    ghost output = { λ mac. Some (mac_text mac) };

    fn fmt<W: fmt::Write>(&self, f: &mut fmt::Formatter<W>) -> fmt::Result {
        let number = self.0;
        let a = Octet((number >> 40) as u8);
        let b = Octet(((number >> 32) % 256) as u8);
        let c = Octet(((number >> 24) % 256) as u8);
        let d = Octet(((number >> 16) % 256) as u8);
        let e = Octet(((number >> 8) % 256) as u8);
        let last = Octet((number % 256) as u8);
        write!(f, "{a}:{b}:{c}:{d}:{e}:{last}")
    }
}

/// An octet in two lower-case digits.
#[derive(Clone, Copy)]
struct Octet(u8);

impl fmt::Display for Octet {
    ghost use Rattle.std.specs.Prelude.{Some};
    ghost use Rattle.fw_addr.specs.Hexadecimal.{hex_byte};

    ghost output = { λ octet. Some (hex_byte octet.0) };

    #[tactic(auto, using(std::proofs::lemmas::Fmt::hex_byte))]
    fn fmt<W: fmt::Write>(&self, f: &mut fmt::Formatter<W>) -> fmt::Result {
        let octet = self.0;
        write!(f, "{octet:02x}")
    }
}

/// The address as a text: six octets of two digits in lower case, joined by `:`.
pub fn print_mac(alloc: Global, address: &Mac) -> Result<Text, Memory>
    ensures text { IfOk result (λ text. text ≡ mac_text address.now) }
    ensures read_back { IfOk result (λ text. mac text ≡ Some address.now) }
{
    printed_hardware_addresses_are_read();
    let _number = address.0;
    let string = format!(in alloc; "{address}")?;
    Ok(Text::from_string(string))
}
