//! What is printed reads back. Each function here is a law: its clause is all of it.
ghost use Rattle.std.specs.Prelude.{◌≡◌, ℕ, ◌-◌, ◌<◌, ◌≤◌, ◌^◌, ◌↔◌, List, IsTrue, Some};
ghost use Rattle.std.specs.Net.Grammar.{IsColonHex};
ghost use Rattle.fw_addr.specs.Addresses.{address, ipv6_groups};
ghost use Rattle.fw_addr.specs.Canonical.{LeavesLongestOut, address_text, groups_of, ipv6_text};
ghost use Rattle.fw_addr.specs.Hardware.{mac, mac_text};
ghost use Rattle.fw_addr.specs.Nets.{mask_length, net, net_text};
ghost use Rattle.fw_addr.specs.Protocols.{port_proto, port_proto_text, proto, proto_text};
ghost use Rattle.fw_addr.specs.declared.proto.PortProto.{PortProto};
ghost use Rattle.fw_addr.specs.Subnets.{Subnet, bits, is_subnet, width};
ghost use Rattle.fw_addr.specs.declared.addr.Addr.{Addr};
ghost use Rattle.fw_addr.specs.Ports.{Range, port_range, ports_text};

use fw_text::decimal_is_read;

/// The text of a range of ports is read as the range.
pub fn printed_ports_are_read()
    ensures { (range : Range) → range.first ≤ range.last → range.last < 2 ^ 16 → port_range (ports_text range) ≡ Some range }
{
    decimal_is_read();
}

/// The text of a protocol is read as its number.
pub fn printed_protocols_are_read()
    ensures all { (n : ℕ) → n < 2 ^ 8 → proto (proto_text n) ≡ Some n }
    ensures with_ports { (protocol : PortProto) → port_proto (port_proto_text protocol) ≡ Some protocol }
{
    decimal_is_read();
}

/// The text of a hardware address is read as the address.
pub fn printed_hardware_addresses_are_read()
    ensures { (n : ℕ) → n < 2 ^ 48 → mac (mac_text n) ≡ Some n }
{}

/// The text of an address is read as the address.
pub fn printed_addresses_are_read()
    ensures { (addr : Addr) → bits addr < 2 ^ width addr → address (address_text addr) ≡ Some addr }
{
    decimal_is_read();
}

/// The text of a net is read as the net.
pub fn printed_nets_are_read()
    ensures { (whole : Subnet) → IsTrue (is_subnet whole) → bits whole.address < 2 ^ width whole.address → net (net_text whole) ≡ Some whole }
{
    decimal_is_read();
}

/// A mask of ones and then zeros is read as the number of its ones.
pub fn masks_are_read()
    ensures { (ones : ℕ) → ones ≤ 32 → mask_length (2 ^ 32 - 2 ^ (32 - ones)) ≡ Some ones }
{}

/// A text spells eight groups exactly where the relation of std for texts of IPv6 addresses says so.
pub fn ipv6_texts_are_those_of_std()
    ensures { (text values : List ℕ) → IsColonHex text values ↔ (ipv6_groups text ≡ Some values) }
{
    decimal_is_read();
}

/// The text of an IPv6 address leaves out the longest run of zero groups, and of equals the first.
pub fn longest_runs_are_shortened()
    ensures { (n : ℕ) → LeavesLongestOut (groups_of n) (ipv6_text n) }
{}
