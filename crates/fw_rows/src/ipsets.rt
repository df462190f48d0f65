//! Sets and services.
use crate::settings::{read_names, read_port};
use fw_addr::{Family, Net, read_mac, read_net};
use fw_base::{Seq, Text};
use fw_model::{IpSet, Item, Service, SetKind};
use fw_words::LineError;
use std::alloc::Global;

/// `NAME KIND FAMILY TIMEOUT ITEM ..`: the kind is `ip`, `net` or `mac`, the family `inet` or `inet6`, the timeout `yes` or `no`, and an
/// item a net or a hardware address.
pub fn read_ipset(alloc: Global, words: &[&str]) -> Result<IpSet, LineError> {
    let [name, kind, family, timeout, texts @ ..] = words else {
        return Err(LineError::BadLine);
    };
    let mut items = Seq::new(alloc);
    for text in texts {
        items.push(read_item(text)?)?;
    }
    Ok(IpSet {
        name: Text::of(alloc, name)?,
        kind: read_kind(kind)?,
        family: read_family(family)?,
        timeout: *timeout == "yes",
        items,
    })
}

fn read_item(text: &str) -> Result<Item, LineError> {
    if let Ok(net) = read_net(text) {
        return Ok(Item::Net(net));
    }
    match read_mac(text) {
        Ok(address) => Ok(Item::Mac(address)),
        Err(_) => Err(LineError::BadLine),
    }
}

fn read_kind(word: &str) -> Result<SetKind, LineError> {
    match word {
        "ip" => Ok(SetKind::Ip),
        "net" => Ok(SetKind::Net),
        "mac" => Ok(SetKind::Mac),
        _ => Err(LineError::BadLine),
    }
}

fn read_family(word: &str) -> Result<Family, LineError> {
    match word {
        "inet" => Ok(Family::V4),
        "inet6" => Ok(Family::V6),
        _ => Err(LineError::BadLine),
    }
}

/// `NAME INCLUDES IPV4 IPV6 PORT ..`: includes are names between commas or `-`, each destination a net or `-`.
pub fn read_service(alloc: Global, words: &[&str]) -> Result<Service, LineError> {
    let [name, includes, v4, v6, texts @ ..] = words else {
        return Err(LineError::BadLine);
    };
    let mut ports = Seq::new(alloc);
    for text in texts {
        ports.push(read_port(text)?)?;
    }
    Ok(Service {
        name: Text::of(alloc, name)?,
        includes: read_names(alloc, includes)?,
        ports,
        protocols: Seq::new(alloc),
        source_ports: Seq::new(alloc),
        v4: read_destination(v4)?,
        v6: read_destination(v6)?,
    })
}

fn read_destination(word: &str) -> Result<Option<Net>, LineError> {
    if word == "-" {
        return Ok(None);
    }
    match read_net(word) {
        Ok(net) => Ok(Some(net)),
        Err(_) => Err(LineError::BadLine),
    }
}
