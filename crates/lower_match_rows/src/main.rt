//! Prints the alternatives of settings as the rules of chains that are named for them: each kind of setting, built-in services, and
//! a service with everything. The file stdout beside src/ was written by hand from nft(8)'s forms.
#![tactic(auto)]

ghost use Rattle.std.specs.Prelude.{◌≤◌};

mod services;

use anyhow::Result;
use fw_addr::{PortProto, PortRange, Proto};
use fw_base::{Memory, Seq, Text};
use fw_model::{Forward, Port, Service, Setting};
use lower_match::matches_of;
use nf_rules::{Chain, Rule, Ruleset, print};
use services::known_services;
use std::alloc::Global;

fn main(rt: HostRuntime) -> Result<()> {
    let alloc = rt.alloc();
    let known = known_services(alloc)?;
    let mut chains = plain_chains(alloc)?;
    push_icmp(alloc, &mut chains)?;
    push_services(alloc, known.as_slice(), &mut chains)?;
    let rules = Ruleset {
        chains,
        sets: Seq::new(alloc),
        maps: Seq::new(alloc),
    };
    print!(rt; "{}", print(alloc, &rules)?.as_str())?;
    Ok(())
}

fn plain_chains(alloc: Global) -> Result<Seq<Chain>, Memory> {
    let web = ports(PortProto::Tcp, 80, 90);
    let dns = ports(PortProto::Udp, 53, 53);
    let forward = Forward {
        port: web,
        to_port: Some(8080),
        to_addr: None,
    };
    let mut chains = Seq::new(alloc);
    chains.push(chain(alloc, "port", &Setting::Port(web), &[])?)?;
    chains.push(chain(alloc, "source_port", &Setting::SourcePort(dns), &[])?)?;
    chains.push(chain(alloc, "protocol", &Setting::Protocol(Proto(47)), &[])?)?;
    chains.push(chain(alloc, "masquerade", &Setting::Masquerade, &[])?)?;
    chains.push(chain(alloc, "forward", &Setting::Forward(forward), &[])?)?;
    Ok(chains)
}

fn push_icmp(alloc: Global, chains: &mut Seq<Chain>) -> Result<(), Memory> {
    for name in ["echo-request", "packet-too-big", "unknown"] {
        let setting = Setting::IcmpBlock(Text::of(alloc, name)?);
        chains.push(chain(alloc, name, &setting, &[])?)?;
    }
    Ok(())
}

fn push_services(alloc: Global, known: &[Service], chains: &mut Seq<Chain>) -> Result<(), Memory> {
    for name in [
        "dns",
        "dhcpv6-client",
        "mdns",
        "web-site",
        "everything",
        "round",
        "nosuch",
    ] {
        let setting = Setting::Service(Text::of(alloc, name)?);
        chains.push(chain(alloc, name, &setting, known)?)?;
    }
    Ok(())
}

/// Ports of a protocol, from one to another.
pub fn ports(proto: PortProto, first: u16, last: u16) -> Port
    requires { first ≤ last }
{
    Port {
        range: PortRange { first, last },
        proto,
    }
}

/// A chain with a rule for each alternative of a setting.
fn chain(
    alloc: Global,
    name: &str,
    setting: &Setting,
    services: &[Service],
) -> Result<Chain, Memory> {
    let mut rules = Seq::new(alloc);
    let alternatives = matches_of(alloc, setting, services, &[])?;
    for matches in alternatives.into_vec() {
        rules.push(Rule {
            matches,
            stmts: Seq::new(alloc),
        })?;
    }
    Ok(Chain {
        name: Text::of(alloc, name)?,
        base: None,
        rules,
    })
}
