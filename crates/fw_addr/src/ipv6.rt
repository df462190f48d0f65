//! The texts of IPv6 addresses, which std reads and prints.
ghost use Rattle.std.specs.Prelude.{◌≡◌, ◌≤◌, length};
ghost use Rattle.std.specs.Int.Digits.{number_from_digits};
ghost use Rattle.fw_addr.specs.Addresses.{ipv6};
ghost use Rattle.fw_addr.specs.Canonical.{groups_of};

use fw_text::decimal_is_read;
use std::fmt;
use std::net::Ipv6Addr;

/// Reads eight groups of up to four hexadecimal digits joined by `:`, of which one `::` may stand for one or
/// more zero groups and an IPv4 text for the last two.
pub fn read_ipv6(text: &[u8]) -> Option<u128>
    ensures { result ≡ ipv6 text.now }
{
    decimal_is_read();
    match Ipv6Addr::parse_ascii(text) {
        Ok(address) => Some(number(&address.segments())),
        Err(_) => None,
    }
}

/// The text of an address: lower-case hexadecimal groups without leading zeros, with `::` for the longest run of at
/// least two zero groups, and of equals for the first.
#[derive(Clone, Copy)]
pub struct ColonHex(pub u128);

impl fmt::Display for ColonHex {
    ghost use Rattle.std.specs.Prelude.{Some};
    ghost use Rattle.fw_addr.specs.Canonical.{ipv6_text};

    ghost output = { λ address. Some (ipv6_text address.0) };

    fn fmt<W: fmt::Write>(&self, f: &mut fmt::Formatter<W>) -> fmt::Result {
        f.write(Ipv6Addr::from_segments(groups_of(self.0)).hex_groups())
    }
}

fn groups_of(number: u128) -> [u16; 8]
    ensures { result ≡ groups_of number }
{
    [
        (number >> 112) as u16,
        ((number >> 96) % 65536) as u16,
        ((number >> 80) % 65536) as u16,
        ((number >> 64) % 65536) as u16,
        ((number >> 48) % 65536) as u16,
        ((number >> 32) % 65536) as u16,
        ((number >> 16) % 65536) as u16,
        (number % 65536) as u16,
    ]
}

/// Groups as a number, the first the most significant.
fn number(groups: &[u16]) -> u128
    requires { length groups.now ≤ 8 }
    ensures { result ≡ number_from_digits 65536 groups.now }
{
    let mut number: u128 = 0;
    for group in groups {
        number = number * 65536 + u128::from(*group);
    }
    number
}
