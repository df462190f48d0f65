//! The canonical texts of settings.
ghost use Rattle.std.specs.Prelude.{◌≡◌, ◌∷◌, ◌++◌, IfOk};
ghost use Rattle.fw_zone_edits.specs.Texts.{forward_text, port_text, setting_text, to_address_text, to_port_text};

use fw_addr::{Addr, print_addr, print_proto};
use fw_base::{Memory, Text};
use fw_model::{Forward, Port, Setting};
use fw_rich::print_rich;
use std::alloc::Global;

/// A setting's canonical text, as refusals name it: a name, `80/tcp`, `80/tcp:8080:10.0.0.5`, a rich rule, `masquerade`.
#[tactic(auto, unfolding(crate::specs::Texts::setting_text))]
pub fn setting_text(alloc: Global, setting: &Setting) -> Result<Text, Memory>
    ensures { IfOk result (λ text. text ≡ setting_text setting.now) }
{
    match setting {
        Setting::Service(name) => Text::of(alloc, name.as_str()),
        Setting::Port(port) => port_text(alloc, port),
        Setting::Protocol(protocol) => print_proto(alloc, protocol),
        Setting::SourcePort(port) => port_text(alloc, port),
        Setting::IcmpBlock(name) => Text::of(alloc, name.as_str()),
        Setting::Masquerade => Text::of(alloc, "masquerade"),
        Setting::Forward(forward) => forward_text(alloc, forward),
        Setting::Rich(rule) => print_rich(alloc, rule),
    }
}

/// A port's canonical text, as `80/tcp`.
pub fn port_text(alloc: Global, port: &Port) -> Result<Text, Memory>
    ensures { IfOk result (λ text. text ≡ port_text port.now) }
{
    let Port { range, proto } = *port;
    let proto = proto.as_str();
    Ok(Text::from_string(format!(in alloc; "{range}/{proto}")?))
}

/// A forward port's canonical text, as `80/tcp:8080:10.0.0.5`; what isn't said of the target is empty.
#[tactic(auto, unfolding(crate::specs::Texts::forward_text))]
fn forward_text(alloc: Global, forward: &Forward) -> Result<Text, Memory>
    ensures { IfOk result (λ text. text ≡ forward_text forward.now) }
{
    let from = port_text(alloc, &forward.port)?;
    let number = to_port_text(alloc, forward.to_port)?;
    let host = to_address_text(alloc, &forward.to_addr)?;
    joined(alloc, from, number, host)
}

/// Three texts, with a colon between two of them.
fn joined(alloc: Global, from: Text, number: Text, host: Text) -> Result<Text, Memory>
    ensures { IfOk result (λ text. text ≡ from ++ (58 ∷ (number ++ (58 ∷ host)))) }
{
    Ok(Text::from_string(format!(in alloc; "{from}:{number}:{host}")?))
}

/// The port to which packets go, or an empty text.
pub fn to_port_text(alloc: Global, port: Option<u16>) -> Result<Text, Memory>
    ensures { IfOk result (λ text. text ≡ to_port_text port) }
{
    match port {
        Some(port) => Ok(Text::from_string(format!(in alloc; "{port}")?)),
        None => Text::of(alloc, ""),
    }
}

/// The address to which packets go, or an empty text.
pub fn to_address_text(alloc: Global, address: &Option<Addr>) -> Result<Text, Memory>
    ensures { IfOk result (λ text. text ≡ to_address_text address.now) }
{
    match address {
        Some(address) => print_addr(alloc, address),
        None => Text::of(alloc, ""),
    }
}
