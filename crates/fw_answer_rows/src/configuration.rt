//! The configuration that calls and packets are answered over.
use fw_addr::{Family, PortProto, PortRange, Proto};
use fw_base::{Memory, Seq, Text};
use fw_model::{Config, IpSet, Port, Service, SetKind};
use fw_service::built_in_config;
use std::alloc::Global;

const GRE: Proto = Proto(47);

/// The built-in configuration with an ipset of each kind, one of IPv6, and one with a timeout; a service that includes itself, a chain
/// of five includes that ends in a built-in one, and a service with a protocol and a source port.
pub fn configuration(alloc: Global) -> Result<Config, Memory> {
    let mut config = built_in_config(alloc)?;
    push_set(alloc, &mut config, "ips", SetKind::Ip, Family::V4, false)?;
    push_set(alloc, &mut config, "nets", SetKind::Net, Family::V4, false)?;
    push_set(alloc, &mut config, "six", SetKind::Net, Family::V6, false)?;
    push_set(alloc, &mut config, "macs", SetKind::Mac, Family::V4, false)?;
    push_set(alloc, &mut config, "timed", SetKind::Ip, Family::V4, true)?;
    push_service(alloc, &mut config, "itself", "itself")?;
    push_service(alloc, &mut config, "first", "second")?;
    push_service(alloc, &mut config, "second", "third")?;
    push_service(alloc, &mut config, "third", "fourth")?;
    push_service(alloc, &mut config, "fourth", "fifth")?;
    push_service(alloc, &mut config, "fifth", "mixed")?;
    push_mixed(alloc, &mut config)?;
    Ok(config)
}

fn push_set(
    alloc: Global,
    config: &mut Config,
    name: &str,
    kind: SetKind,
    family: Family,
    timeout: bool,
) -> Result<(), Memory> {
    config.ipsets.push(IpSet {
        name: Text::of(alloc, name)?,
        kind,
        family,
        timeout,
        items: Seq::new(alloc),
    })
}

/// A service that is no more than one that it includes.
fn push_service(
    alloc: Global,
    config: &mut Config,
    name: &str,
    included: &str,
) -> Result<(), Memory> {
    let mut includes = Seq::new(alloc);
    includes.push(Text::of(alloc, included)?)?;
    push_including(alloc, config, name, includes)
}

fn push_including(
    alloc: Global,
    config: &mut Config,
    name: &str,
    includes: Seq<Text>,
) -> Result<(), Memory> {
    config.services.push(Service {
        name: Text::of(alloc, name)?,
        includes,
        ports: Seq::new(alloc),
        protocols: Seq::new(alloc),
        source_ports: Seq::new(alloc),
        v4: None,
        v6: None,
    })
}

/// A service with a protocol and a source port.
fn push_mixed(alloc: Global, config: &mut Config) -> Result<(), Memory> {
    let mut protocols = Seq::new(alloc);
    protocols.push(GRE)?;
    let mut source_ports = Seq::new(alloc);
    source_ports.push(source_port())?;
    config.services.push(Service {
        name: Text::of(alloc, "mixed")?,
        includes: Seq::new(alloc),
        ports: Seq::new(alloc),
        protocols,
        source_ports,
        v4: None,
        v6: None,
    })
}

/// 3006/tcp
fn source_port() -> Port {
    Port {
        range: PortRange {
            first: 3006,
            last: 3006,
        },
        proto: PortProto::Tcp,
    }
}
