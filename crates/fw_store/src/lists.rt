//! Values that are told by arrays.
ghost use Rattle.std.specs.Prelude.{◌≡◌, [], ◌∷◌, ◌++◌, IfOk, OnOk, map};
ghost use Rattle.fw_addr.specs.Ports.{ports_text};
ghost use Rattle.fw_addr.specs.Protocols.{port_proto_text};
ghost use Rattle.fw_store.specs.Objects.{forward_data, list_of, port_data};
ghost use Rattle.fw_store.specs.Texts.{to_addr_text, to_port_text};
ghost use Rattle.serde_json.specs.Data.{string};
ghost use Rattle.serde_json.specs.View.{view};

use crate::single::text_value;
use crate::stored::Stored;
use fw_addr::Addr;
use fw_base::{Memory, Seq};
use fw_model::{Forward, Port};
use serde_json::Value;
use std::alloc::Global;

impl<T: Stored> Stored for Seq<T> {
    ghost json = { λ items. list_of T.Stored.json items };

    fn to_value(&self, alloc: Global) -> Result<Value, Memory> {
        list_value(alloc, self.as_slice())
    }
}

/// An array with a value for each item.
fn list_value<T: Stored>(alloc: Global, items: &[T]) -> Result<Value, Memory>
    ensures { IfOk result (λ value. view value ≡ list_of T.json items.now) }
{
    let mut values = Vec::new(alloc);
    for item in items {
        values.push(item.to_value(alloc)?)?;
    }
    Ok(Value::Array(values))
}

impl Stored for Port {
    ghost json = { port_data };

    fn to_value(&self, alloc: Global) -> Result<Value, Memory> {
        let mut values = Vec::new(alloc);
        push_port(alloc, &mut values, self)?;
        Ok(Value::Array(values))
    }
}

impl Stored for Forward {
    ghost json = { forward_data };

    fn to_value(&self, alloc: Global) -> Result<Value, Memory> {
        let mut values = Vec::new(alloc);
        push_port(alloc, &mut values, &self.port)?;
        values.push(to_port_value(alloc, self.to_port)?)?;
        values.push(to_addr_value(alloc, self.to_addr)?)?;
        Ok(Value::Array(values))
    }
}

/// A range of ports, and then its protocol.
fn push_port(alloc: Global, values: &mut Vec<Value>, port: &Port) -> Result<(), Memory>
    ensures { OnOk result (map view values.new.items ≡ map view values.old.items ++ string (ports_text port.now.range) ∷ string (port_proto_text port.now.proto) ∷ []) }
{
    let range = port.range;
    values.push(Value::String(format!(in alloc; "{range}")?))?;
    values.push(text_value(alloc, port.proto.as_str())?)?;
    Ok(())
}

/// The port that packets go to, or an empty text.
fn to_port_value(alloc: Global, port: Option<u16>) -> Result<Value, Memory>
    ensures { IfOk result (λ value. view value ≡ string (to_port_text port)) }
{
    match port {
        Some(port) => Ok(Value::String(format!(in alloc; "{port}")?)),
        None => text_value(alloc, ""),
    }
}

/// The host that packets go to, or an empty text.
fn to_addr_value(alloc: Global, address: Option<Addr>) -> Result<Value, Memory>
    ensures { IfOk result (λ value. view value ≡ string (to_addr_text address)) }
{
    match address {
        Some(address) => Ok(Value::String(format!(in alloc; "{address}")?)),
        None => text_value(alloc, ""),
    }
}
