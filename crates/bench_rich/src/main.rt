//! Reads rich rules of all kinds and prints each in its canonical form, and prints a checksum of these texts alone. The
//! argument says how many rules. The folder bench/ has the yardstick that does the same.
#![tactic(auto)]

use anyhow::{Result, anyhow};
use fw_rich::{RichError, print_rich, read_rich};
use std::alloc::Global;
use std::env;

/// Rules of each kind, canonical ones and others.
const TEXTS: [&str; 20] = [
    "rule family=\"ipv4\" source address=\"10.0.0.0/8\" accept",
    "rule family=\"ipv4\" source NOT address=\"192.168.1.0/24\" service name=\"ssh\" drop",
    "rule family='ipv6' source address='2001:db8::/32' destination address='2001:db8:1::5' port port=443 protocol=tcp accept",
    "rule service name=\"http\" log prefix=\"web \" level=\"info\" limit value=\"3/m\" accept",
    "rule family=ipv4 priority=-5 source not address=\"10.0.0.0/8\" port port=80 protocol=tcp log level=info limit value=3/m reject type=\"tcp-reset\"",
    "rule priority=\"100\" source ipset=\"blocked\" drop",
    "rule source mac=\"00:1B:21:00:00:0A\" destination NOT ipset=\"inside\" audit limit value=\"1/h\" reject",
    "rule family=\"ipv4\" forward-port port=\"80\" protocol=\"tcp\" to-port=\"8080\" to-addr=\"10.0.0.5\"",
    "rule family=\"ipv4\" source address=\"172.16.0.0/255.240.0.0\" masquerade",
    "rule protocol value=\"gre\" log prefix=\"tunnel: \" level=\"debug\" audit accept limit value=\"100/minute\"",
    "rule icmp-block name=\"redirect\" log",
    "rule family=\"ipv6\" icmp-type name=\"echo-request\" accept limit value=\"10/s\"",
    "rule source-port port=\"1024-65535\" protocol=\"udp\" drop",
    "rule family=\"ipv4\" source address=\"192.0.2.0/24\" mark set=\"0x10/0xf0\"",
    "rule priority=\"-32768\" log prefix=all limit value=1/d",
    "rule family=\"ipv6\" destination address=\"fe80::1\" protocol value=\"ipv6-icmp\" reject type=\"icmp6-adm-prohibited\"",
    "rule   family=\"ipv4\"   destination   address=\"198.51.100.7\"   port   protocol=\"sctp\"   port=\"5000-5010\"   accept",
    "rule service name=\"samba-client\" audit drop",
    "rule family=\"ipv4\" source address=\"203.0.113.9\" destination address=\"10.1.2.3\" service name=\"dns\" log audit reject type=\"icmp-host-prohibited\" limit value=\"5/h\"",
    "rule port port=\"53\" protocol=\"udp\" mark set=\"7\" limit value=\"9999/day\"",
];

/// The checksum with the bytes of a text.
fn mixed(sum: u64, text: &str) -> u64 {
    let mut sum = sum;
    for byte in text.bytes() {
        sum = sum.wrapping_mul(31).wrapping_add(u64::from(byte));
    }
    sum
}

/// The checksum with the canonical text of a rule, or one more where the text is refused.
fn with_rule(alloc: Global, sum: u64, text: &str) -> Result<u64> {
    match read_rich(alloc, text) {
        Ok(rule) => Ok(mixed(sum, print_rich(alloc, &rule)?.as_str())),
        Err(RichError::Memory) => Err(anyhow!("out of memory")),
        Err(_) => Ok(sum.wrapping_add(1)),
    }
}

/// The checksum of that many rules, in turn.
fn checksum(alloc: Global, count: u64) -> Result<u64> {
    let mut sum = 0;
    for place in 0..count {
        let text = TEXTS[(place % 20) as usize];
        sum = with_rule(alloc, sum, text)?;
    }
    Ok(sum)
}

fn main(rt: HostRuntime) -> Result<()> {
    let word = env::args(&rt)?
        .nth(1)
        .ok_or_else(|| anyhow!("how many rules?"))?;
    let count = word.as_str().parse::<u64>()?;
    println!(rt; "{}", checksum(rt.alloc(), count)?)?;
    Ok(())
}
