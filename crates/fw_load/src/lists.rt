//! Values that are told by arrays of a fixed length.
ghost use Rattle.std.specs.Prelude.{◌≡◌, option_and_then};
ghost use Rattle.fw_addr.specs.Ports.{port as port_number};
ghost use Rattle.fw_load.specs.Values.{forward, forward_in, forward_of, host, port, port_in, port_of, unless_empty};
ghost use Rattle.serde_json.specs.Find.{as_array};
ghost use Rattle.serde_json.specs.View.{items_view, view};

use crate::stop::{Stop, or_fault};
use crate::texts::host;
use crate::told::Told;
use fw_addr::{Addr, read_port_proto, read_ports};
use fw_model::{Forward, Port};
use fw_text::read_number;
use serde_json::Value;
use std::alloc::Global;

impl Told for Port {
    ghost reading = { port };

    fn read(alloc: Global, value: &Value) -> Result<Port, Stop> {
        or_fault(
            alloc,
            value.as_array().and_then(|items| port_in(items.as_slice())),
        )
    }
}

fn port_in(items: &[Value]) -> Option<Port>
    ensures { result ≡ port_in (items_view items.now) }
{
    let (range, others) = items.split_first()?;
    let (proto, others) = others.split_first()?;
    match others.split_first() {
        None => port_of(range, proto),
        Some(_) => None,
    }
}

/// A range of ports and its protocol.
#[tactic(auto, unfolding(crate::specs::Values::port_of))]
fn port_of(range: &Value, proto: &Value) -> Option<Port>
    ensures { result ≡ port_of (view range.now) (view proto.now) }
{
    let range = read_ports(range.as_str()?).ok()?;
    let proto = read_port_proto(proto.as_str()?).ok()?;
    Some(Port { range, proto })
}

impl Told for Forward {
    ghost reading = { forward };

    fn read(alloc: Global, value: &Value) -> Result<Forward, Stop> {
        or_fault(
            alloc,
            value
                .as_array()
                .and_then(|items| forward_in(items.as_slice())),
        )
    }
}

fn forward_in(items: &[Value]) -> Option<Forward>
    ensures { result ≡ forward_in (items_view items.now) }
{
    let (range, others) = items.split_first()?;
    let (proto, others) = others.split_first()?;
    let (to_port, others) = others.split_first()?;
    let (to_addr, others) = others.split_first()?;
    match others.split_first() {
        None => forward_of(range, proto, to_port, to_addr),
        Some(_) => None,
    }
}

/// A port that is forwarded, and the port and the host that it goes to.
#[tactic(auto, unfolding(crate::specs::Values::forward_of))]
fn forward_of(range: &Value, proto: &Value, to_port: &Value, to_addr: &Value) -> Option<Forward>
    ensures { result ≡ forward_of (view range.now) (view proto.now) (view to_port.now) (view to_addr.now) }
{
    let port = port_of(range, proto)?;
    let to_port = port_or_nothing(to_port.as_str()?)?;
    let to_addr = host_or_nothing(to_addr.as_str()?)?;
    Some(Forward {
        port,
        to_port,
        to_addr,
    })
}

/// A port, or nothing for the empty text.
fn port_or_nothing(text: &str) -> Option<Option<u16>>
    ensures { result ≡ unless_empty port_number text.now }
{
    if text.is_empty() {
        return Some(None);
    }
    let number = read_number(text.as_bytes(), u64::from(u16::MAX))?;
    Some(Some(number as u16))
}

/// An address, or nothing for the empty text.
fn host_or_nothing(text: &str) -> Option<Option<Addr>>
    ensures { result ≡ unless_empty host text.now }
{
    if text.is_empty() {
        return Some(None);
    }
    Some(Some(host(text)?))
}
