//! Nets: an address and a prefix length.
ghost use Rattle.std.specs.Prelude.{◌≡◌, ℕ, ◌-◌, ◌%◌, ◌^◌, ◌==◌, ◌≤◌, ◌↔◌, IsTrue, IfOk, IfSome, None, Some};
ghost use Rattle.std.specs.Option.{ok_or};
ghost use Rattle.fw_addr.specs.Nets.{net, net_text, mask_length, prefix_length};
ghost use Rattle.fw_addr.specs.Subnets.{SharesBits, SharesPrefix, cleared, in_net, is_subnet, leading, subnet, width};

use super::addr::{bits_fit, parse_addr};
use super::ipv4::read_ipv4;
use super::laws::printed_nets_are_read;
use super::{Addr, AddrError};
use fw_base::{Memory, Text};
use fw_text::{cut, read_number};
use std::alloc::Global;
use std::fmt;
use std::marker::Model;

/// A net: the address of its first host and the length of its prefix. The bits behind the prefix are 0.
#[derive(Clone, Copy, Debug, PartialEq, Eq)]
pub struct Net {
    addr: Addr,
    prefix: u8,
}

impl Model for Net {
    ghost use Rattle.std.specs.Prelude.{IsTrue};
    ghost use Rattle.fw_addr.specs.Subnets.{Subnet, is_subnet};

    ghost Value = { Subnet };

    ghost view = { λ net. record { address = net.addr; prefix = net.prefix } };

    ghost invariant = { λ net. IsTrue (is_subnet (record { address = net.addr; prefix = net.prefix })) };

    ghost inverse = { λ subnet. record { addr = subnet.address; prefix = subnet.prefix } };
}

impl Net {
    #[tactic(auto, using(crate::proofs::NetLemmas::cleared_low, std::proofs::lemmas::Bool::Decides::nat_tests))]
    /// The net of that prefix which an address lies in: the bits behind the prefix are cleared.
    pub fn new(addr: Addr, prefix: u8) -> Net
        requires { prefix ≤ width addr }
        ensures { result ≡ subnet addr prefix }
    {
        match addr {
            Addr::V4(number) => Net {
                addr: Addr::V4(clear_u32(number, 32 - u32::from(prefix))),
                prefix,
            },
            Addr::V6(number) => Net {
                addr: Addr::V6(clear_u128(number, 128 - u32::from(prefix))),
                prefix,
            },
        }
    }

    /// The address of the first host.
    pub fn addr(&self) -> Addr
        ensures { result ≡ self.now.address }
    {
        self.addr
    }

    /// How many bits all addresses of the net share: at most 32, or for IPv6 128. The bits behind them are 0.
    pub fn prefix(&self) -> u8
        ensures value { result ≡ self.now.prefix }
        ensures fits { result ≤ width self.now.address }
        ensures cleared { IsTrue (is_subnet self.now) }
    {
        self.prefix
    }

    /// Whether an address lies in the net: it is of its family and begins with the bits of the prefix.
    pub fn contains(&self, addr: &Addr) -> bool
        ensures value { result ≡ in_net self.now addr.now }
        ensures bits { IsTrue result ↔ SharesPrefix self.now.prefix self.now.address addr.now }
    {
        let prefix = u32::from(self.prefix);
        match (self.addr, *addr) {
            (Addr::V4(first), Addr::V4(number)) => begins_u32(number, first, prefix),
            (Addr::V6(first), Addr::V6(number)) => begins_u128(number, first, prefix),
            _ => false,
        }
    }
}

impl fmt::Display for Net {
    ghost use Rattle.std.specs.Prelude.{Some};
    ghost use Rattle.fw_addr.specs.Nets.{net_text};

    ghost output = { λ net. Some (net_text net) };

    fn fmt<W: fmt::Write>(&self, f: &mut fmt::Formatter<W>) -> fmt::Result {
        let Net { addr, prefix } = *self;
        if prefix == addr.width() {
            f.write(addr)
        } else {
            write!(f, "{addr}/{prefix}")
        }
    }
}

/// The mask of ones and then zeros, of which there are `low`.
fn mask_u32(low: u32) -> u32
    requires { low ≤ 32 }
    ensures { result ≡ 2 ^ 32 - 2 ^ low }
{
    u32::MAX.checked_shl(low).unwrap_or(0)
}

/// Clears the lowest bits of a number.
fn clear_u32(number: u32, low: u32) -> u32
    requires { low ≤ 32 }
    ensures { result ≡ cleared number low }
{
    number & mask_u32(low)
}

/// Whether a number begins with the first bits of a net's first address, whose other bits are 0.
fn begins_u32(number: u32, first: u32, prefix: u32) -> bool
    requires fits { prefix ≤ 32 }
    requires cleared { first % 2 ^ (32 - prefix) ≡ 0 }
    ensures value { result ≡ (leading 32 prefix first == leading 32 prefix number) }
    ensures bits { IsTrue result ↔ SharesBits 32 prefix first number }
{
    clear_u32(number, 32 - prefix) == first
}

/// The mask of ones and then zeros, of which there are `low`.
fn mask_u128(low: u32) -> u128
    requires { low ≤ 128 }
    ensures { result ≡ 2 ^ 128 - 2 ^ low }
{
    u128::MAX.checked_shl(low).unwrap_or(0)
}

/// Clears the lowest bits of a number.
fn clear_u128(number: u128, low: u32) -> u128
    requires { low ≤ 128 }
    ensures { result ≡ cleared number low }
{
    number & mask_u128(low)
}

/// Whether a number begins with the first bits of a net's first address, whose other bits are 0.
fn begins_u128(number: u128, first: u128, prefix: u32) -> bool
    requires fits { prefix ≤ 128 }
    requires cleared { first % 2 ^ (128 - prefix) ≡ 0 }
    ensures value { result ≡ (leading 128 prefix first == leading 128 prefix number) }
    ensures bits { IsTrue result ↔ SharesBits 128 prefix first number }
{
    clear_u128(number, 128 - prefix) == first
}

/// Reads a net: an address, or an address, `/` and a prefix length or, for IPv4, a mask.
pub fn read_net(text: &str) -> Result<Net, AddrError>
    ensures { result ≡ ok_or (net text.now) AddrError.InvalidAddr }
{
    parse_net(text.as_bytes()).ok_or(AddrError::InvalidAddr)
}

fn parse_net(text: &[u8]) -> Option<Net>
    ensures { result ≡ net text.now }
{
    let front = cut(b'/', text);
    let Some(rest) = front.rest else {
        let addr = parse_addr(front.piece)?;
        return Some(Net::new(addr, addr.width()));
    };
    let back = cut(b'/', rest);
    if back.rest.is_some() {
        return None;
    }
    let addr = parse_addr(front.piece)?;
    let prefix = read_prefix(addr, back.piece)?;
    Some(Net::new(addr, prefix))
}

fn read_prefix(addr: Addr, text: &[u8]) -> Option<u8>
    ensures value { result ≡ prefix_length addr text.now }
    ensures bound { IfSome result (λ prefix. prefix ≤ width addr) }
{
    if let Some(prefix) = read_number(text, u64::from(addr.width())) {
        return Some(prefix as u8);
    }
    match addr {
        Addr::V4(_) => mask_length(read_ipv4(text)?),
        Addr::V6(_) => None,
    }
}

/// How many ones a mask has, where it has ones and then zeros.
fn mask_length(mask: u32) -> Option<u8>
    ensures value { result ≡ mask_length mask }
    ensures bound { IfSome result (λ ones. ones ≤ 32) }
{
    let ones = mask.leading_ones();
    if mask == mask_u32(32 - ones) {
        Some(ones as u8)
    } else {
        None
    }
}

/// The net as a text: the prefix length is left out where the net is one address.
pub fn print_net(alloc: Global, whole: &Net) -> Result<Text, Memory>
    ensures text { IfOk result (λ text. text ≡ net_text whole.now) }
    ensures read_back { IfOk result (λ text. net text ≡ Some whole.now) }
{
    printed_nets_are_read();
    bits_fit(whole.addr);
    let string = format!(in alloc; "{whole}")?;
    Ok(Text::from_string(string))
}
