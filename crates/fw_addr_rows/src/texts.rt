//! What a text is read as, in its canonical form.
use fw_addr::{
    icmp_numbers, is_well_formed_name, read_addr, read_iface, read_mac, read_net, read_port_proto,
    read_ports, read_proto,
};
use std::alloc::{AllocError, Global};
use std::fmt::Display;

/// What the line's text is read as, or that it is refused.
pub fn answer(alloc: Global, line: &str) -> Result<String, AllocError> {
    let (kind, text) = line.split_once(' ').unwrap_or((line, ""));
    match kind {
        "net" => shown(alloc, read_net(text).ok()),
        "addr" => shown(alloc, read_addr(text).ok()),
        "ports" => shown(alloc, read_ports(text).ok()),
        "proto" => shown(alloc, read_proto(text).ok()),
        "mac" => shown(alloc, read_mac(text).ok()),
        "icmp" => icmp_text(alloc, text),
        "port-proto" => shown(
            alloc,
            read_port_proto(text).ok().map(|proto| proto.proto().0),
        ),
        "stands" => shown(alloc, stands_for(text).map(word_of)),
        "holds" => shown(alloc, holds(text).map(word_of)),
        "name" => shown(alloc, Some(word_of(is_well_formed_name(text)))),
        _ => shown(alloc, Some("no row")),
    }
}

fn shown<T: Display + Drop>(alloc: Global, found: Option<T>) -> Result<String, AllocError> {
    match found {
        Some(value) => format!(in alloc; "{value}"),
        None => String::from_str(alloc, "refused"),
    }
}

fn icmp_text(alloc: Global, name: &str) -> Result<String, AllocError> {
    let Some(numbers) = icmp_numbers(name) else {
        return String::from_str(alloc, "refused");
    };
    match (numbers.v4, numbers.v6) {
        (Some(v4), Some(v6)) => format!(in alloc; "{v4} {v6}"),
        (Some(v4), None) => format!(in alloc; "{v4} none"),
        (None, Some(v6)) => format!(in alloc; "none {v6}"),
        (None, None) => String::from_str(alloc, "none none"),
    }
}

fn word_of(holds: bool) -> &'static str {
    if holds { "yes" } else { "no" }
}

/// Whether an entry, the second word, stands for a name.
fn stands_for(words: &str) -> Option<bool> {
    let (name, entry) = words.split_once(' ')?;
    Some(read_iface(entry).ok()?.matches(name))
}

/// Whether a net, the second word, holds an address.
fn holds(words: &str) -> Option<bool> {
    let (addr, net) = words.split_once(' ')?;
    Some(read_net(net).ok()?.contains(&read_addr(addr).ok()?))
}
