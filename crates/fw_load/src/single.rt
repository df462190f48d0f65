//! Values that are told by one text, a truth or a number.
ghost use Rattle.std.specs.Prelude.{◌≡◌, IfOk, option_and_then};
ghost use Rattle.fw_addr.specs.Interfaces.{interface};
ghost use Rattle.fw_load.specs.Values.{entry, named_set, net_or_mac, network, protocol, rich, source, text, text_by, truth, unless_empty, whole, within_i32};
ghost use Rattle.fw_model.specs.declared.binding.Binding.TheVariants as bindings;
ghost use Rattle.serde_json.specs.View.{view};

use crate::stop::{Stop, here, or_fault};
use crate::texts::{hardware, network, protocol};
use crate::told::Told;
use fw_addr::{Iface, Net, Proto, is_well_formed_name, read_iface};
use fw_base::{Memory, Text};
use fw_model::{Binding, Item, Rich};
use fw_rich::{RichError, read_rich};
use fw_words::after_key;
use serde_json::Value;
use std::alloc::Global;

impl Told for Text {
    ghost reading = { text };

    fn read(alloc: Global, value: &Value) -> Result<Text, Stop> {
        match value.as_str() {
            Some(text) => Ok(Text::of(alloc, text)?),
            None => Err(here(alloc)),
        }
    }
}

impl Told for bool {
    ghost reading = { truth };

    fn read(alloc: Global, value: &Value) -> Result<bool, Stop> {
        or_fault(alloc, value.as_bool())
    }
}

impl Told for i32 {
    ghost reading = { whole };

    fn read(alloc: Global, value: &Value) -> Result<i32, Stop> {
        or_fault(alloc, within_i32(value.as_i64()))
    }
}

/// A number within 32 bits.
fn within_i32(number: Option<i64>) -> Option<i32>
    ensures { result ≡ option_and_then within_i32 number }
{
    i32::try_from(number?).ok()
}

impl Told for Iface {
    ghost reading = { text_by interface };

    fn read(alloc: Global, value: &Value) -> Result<Iface, Stop> {
        or_fault(alloc, value.as_str().and_then(|text| read_iface(text).ok()))
    }
}

impl Told for Proto {
    ghost reading = { text_by protocol };

    fn read(alloc: Global, value: &Value) -> Result<Proto, Stop> {
        or_fault(alloc, value.as_str().and_then(protocol))
    }
}

impl Told for Option<Net> {
    ghost reading = { text_by (unless_empty network) };

    fn read(alloc: Global, value: &Value) -> Result<Option<Net>, Stop> {
        or_fault(alloc, value.as_str().and_then(net_or_nothing))
    }
}

/// A net, or nothing for the empty text.
fn net_or_nothing(text: &str) -> Option<Option<Net>>
    ensures { result ≡ unless_empty network text.now }
{
    if text.is_empty() {
        return Some(None);
    }
    Some(Some(network(text)?))
}

impl Told for Rich {
    ghost reading = { text_by rich };

    fn read(alloc: Global, value: &Value) -> Result<Rich, Stop> {
        let Some(text) = value.as_str() else {
            return Err(here(alloc));
        };
        match read_rich(alloc, text) {
            Ok(rule) => Ok(rule),
            Err(RichError::Memory) => Err(Stop::Memory),
            Err(_) => Err(here(alloc)),
        }
    }
}

impl Told for Binding {
    ghost reading = { text_by source };

    fn read(alloc: Global, value: &Value) -> Result<Binding, Stop> {
        let Some(text) = value.as_str() else {
            return Err(here(alloc));
        };
        or_fault(alloc, source(alloc, text)?)
    }
}

/// A source by its text.
#[tactic(auto, unfolding(crate::specs::Values::source))]
fn source(alloc: Global, text: &str) -> Result<Option<Binding>, Memory>
    ensures { IfOk result (λ found. found ≡ source text.now) }
{
    match after_key("ipset:", text) {
        Some(name) => named_set(alloc, name),
        None => Ok(address(text)),
    }
}

/// The ipset of a name, where it is well formed.
fn named_set(alloc: Global, name: &str) -> Result<Option<Binding>, Memory>
    ensures { IfOk result (λ found. found ≡ named_set name.now) }
{
    if !is_well_formed_name(name) {
        return Ok(None);
    }
    Ok(Some(Binding::Set(Text::of(alloc, name)?)))
}

/// A net or a hardware address.
fn address(text: &str) -> Option<Binding>
    ensures { result ≡ net_or_mac bindings.Net bindings.Mac text.now }
{
    match network(text) {
        Some(net) => Some(Binding::Net(net)),
        None => Some(Binding::Mac(hardware(text)?)),
    }
}

impl Told for Item {
    ghost reading = { text_by entry };

    fn read(alloc: Global, value: &Value) -> Result<Item, Stop> {
        or_fault(alloc, value.as_str().and_then(entry))
    }
}

/// An entry of an ipset.
#[tactic(auto, unfolding(crate::specs::Values::entry))]
fn entry(text: &str) -> Option<Item>
    ensures { result ≡ entry text.now }
{
    match network(text) {
        Some(net) => Some(Item::Net(net)),
        None => Some(Item::Mac(hardware(text)?)),
    }
}
