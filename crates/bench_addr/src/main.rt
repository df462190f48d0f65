//! Prints addresses and nets of each family, reads them back, reads texts that are refused or not canonical, masks and
//! long prefixes, and prints a checksum of the texts alone. The argument says how many of each. The folder bench/ has
//! the yardstick that does the same.
#![tactic(auto)]

use anyhow::{Result, anyhow};
use fw_addr::{Addr, Net, print_addr, print_net, read_addr, read_net};
use fw_base::Memory;
use std::alloc::Global;
use std::env;

/// Numbers that look random, the same in each run.
#[derive(Drop)]
struct Generator {
    state: u64,
}

impl Generator {
    fn draw(&mut self) -> u32 {
        self.state = self
            .state
            .wrapping_mul(6364136223846793005)
            .wrapping_add(1442695040888963407);
        (self.state >> 32) as u32
    }

    fn v4(&mut self) -> Addr {
        Addr::V4(self.draw())
    }

    /// Every other address has zero groups in its middle.
    fn v6(&mut self) -> Addr {
        let first = u128::from(self.draw()) << 96;
        let second = u128::from(self.draw()) << 64;
        let third = u128::from(self.draw()) << 32;
        let last = u128::from(self.draw());
        if last % 2 == 0 {
            Addr::V6(first | last)
        } else {
            Addr::V6(first | second | third | last)
        }
    }
}

/// The checksum with the bytes of a text.
fn mixed(sum: u64, text: &str) -> u64 {
    let mut sum = sum;
    for byte in text.bytes() {
        sum = sum.wrapping_mul(31).wrapping_add(u64::from(byte));
    }
    sum
}

/// The checksum with the text of an address, if that reads back as the address.
fn with_addr(alloc: Global, sum: u64, addr: Addr) -> Result<u64, Memory> {
    let text = print_addr(alloc, &addr)?;
    if read_addr(text.as_str()) == Ok(addr) {
        Ok(mixed(sum, text.as_str()))
    } else {
        Ok(0)
    }
}

/// The checksum with the text of a net, if that reads back as the net.
fn with_net(alloc: Global, sum: u64, net: Net) -> Result<u64, Memory> {
    let text = print_net(alloc, &net)?;
    if read_net(text.as_str()) == Ok(net) {
        Ok(mixed(sum, text.as_str()))
    } else {
        Ok(0)
    }
}

/// Texts that are no nets or not canonical, a mask, and prefixes of all lengths.
const TEXTS: [&str; 16] = [
    "256.1.1.1",
    "1.2.3",
    "01.2.3.4",
    "10.0.0.0/33",
    "::/129",
    "1:2:3:4:5:6:7:8:9",
    "1::2::3",
    "fe80::1%eth0",
    "12345::",
    "10.1.2.3/8",
    "10.0.0.0/255.255.255.0",
    "10.0.0.0/255.0.255.0",
    "2001:0DB8:0000:0000:0000:0000:0000:0001",
    "::ffff:1.2.3.4/120",
    "2001:db8:aaaa:bbbb:cccc:dddd:eeee:1/127",
    "1.2.3.4/31",
];

/// The checksum with the canonical texts of those that are nets, and one more for each other.
fn with_texts(alloc: Global, sum: u64) -> Result<u64, Memory> {
    let mut sum = sum;
    for text in TEXTS {
        match read_net(text) {
            Ok(net) => sum = mixed(sum, print_net(alloc, &net)?.as_str()),
            Err(_) => sum = sum.wrapping_add(1),
        }
    }
    Ok(sum)
}

fn checksum(alloc: Global, count: u64) -> Result<u64, Memory> {
    let mut generator = Generator { state: 1 };
    let mut sum = 0;
    for _ in 0..count {
        sum = with_addr(alloc, sum, generator.v4())?;
        sum = with_addr(alloc, sum, generator.v6())?;
        let prefix = 8 + (generator.draw() % 24) as u8;
        sum = with_net(alloc, sum, Net::new(generator.v4(), prefix))?;
        sum = with_net(alloc, sum, Net::new(generator.v6(), prefix))?;
        let long = 64 + (generator.draw() % 65) as u8;
        let addr = generator.v6();
        sum = with_net(alloc, sum, Net::new(addr, long.min(addr.width())))?;
        sum = with_texts(alloc, sum)?;
    }
    Ok(sum)
}

fn main(rt: HostRuntime) -> Result<()> {
    let word = env::args(&rt)?
        .nth(1)
        .ok_or_else(|| anyhow!("how many addresses and nets of each family?"))?;
    let count = word.as_str().parse::<u64>()?;
    println!(rt; "{}", checksum(rt.alloc(), count)?)?;
    Ok(())
}
