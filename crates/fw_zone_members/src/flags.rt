//! Queries that are answered with a flag, without memory.
ghost use Rattle.std.specs.Prelude.{◌≡◌, true, false, None, Some, Ok, IsErr, MatchOption};
ghost use Rattle.std.specs.List.{list_any};
ghost use Rattle.std.specs.Str.{bytes_eq};
ghost use Rattle.fw_model.specs.declared.setting.Setting.TheVariants as settings;
ghost use Rattle.fw_service.specs.Known.{is_known};
ghost use Rattle.fw_zone_edits.specs.Settings.{has};
ghost use Rattle.fw_zone_members.specs.Bindings.{query_binding};
ghost use Rattle.fw_zone_members.specs.Flags.{Flags, is_interface, is_plain};
ghost use Rattle.fw_addr.specs.Protocols.{proto};
ghost use Rattle.fw_zone_members.specs.Reading.{port_of};
ghost use Rattle.fw_zone_members.specs.Settings.{query_setting};

use fw_addr::{Proto, read_iface, read_port_proto, read_ports, read_proto};
use fw_calls::{BindingKind, BindingWord, SettingWords};
use fw_model::{Config, Port, Rules, Setting};
use fw_service::knows;
use fw_settings::Settings;
use fw_zone_edits::{Entry, has_setting, zone_meant};

/// `queryService`, `queryPort`, `queryProtocol`, `querySourcePort` and `queryMasquerade`, without memory: whether a zone has the
/// setting. None: the query is refused, or it asks for another setting. An empty zone is the default zone.
#[tactic(auto, unfolding(crate::specs::Flags::is_plain, crate::specs::Settings::query_setting, crate::specs::Reading::look_up, crate::specs::Reading::setting_of))]
pub fn setting_flag(settings: &Settings, zone: &str, words: &SettingWords) -> Option<bool>
    ensures { Flags settings.entry.now (is_plain words.now) result (query_setting settings.entry.now zone.now words.now) }
{
    let config = &settings.runtime.config;
    let found = zone_meant(config, zone)?;
    let rules = &found.zone.rules;
    match words {
        SettingWords::Service { name } => service_flag(config, rules, name.as_str()),
        SettingWords::Port { port, protocol } => {
            let port = plain_port(port.as_str(), protocol.as_str())?;
            Some(has_setting(rules, &Setting::Port(port)))
        }
        SettingWords::SourcePort { port, protocol } => {
            let port = plain_port(port.as_str(), protocol.as_str())?;
            Some(has_setting(rules, &Setting::SourcePort(port)))
        }
        SettingWords::Protocol { protocol } => {
            let protocol = plain_protocol(protocol.as_str())?;
            Some(has_setting(rules, &Setting::Protocol(protocol)))
        }
        SettingWords::Masquerade => Some(has_setting(rules, &Setting::Masquerade)),
        SettingWords::IcmpBlock { .. }
        | SettingWords::ForwardPort { .. }
        | SettingWords::RichRule { .. } => None,
    }
}

/// Whether the settings have a known service. None: it isn't known.
fn service_flag(config: &Config, rules: &Rules, name: &str) -> Option<bool>
    ensures { MatchOption result (is_known config.now.services name.now ≡ false)
        (λ flag. (is_known config.now.services name.now ≡ true) × (has rules.now (settings.Service name.now) ≡ flag)) }
{
    if knows(config.services.as_slice(), name) {
        Some(has_service(rules, name))
    } else {
        None
    }
}

fn has_service(rules: &Rules, name: &str) -> bool
    ensures { result ≡ has rules.now (settings.Service name.now) }
{
    lists_service(rules, name)
}

fn lists_service(rules: &Rules, name: &str) -> bool
    ensures { result ≡ list_any (λ listed. bytes_eq listed name.now) rules.now.services }
{
    rules
        .services
        .as_slice()
        .iter()
        .any(|service| service.as_str() == name)
}

/// The port that two arguments spell. None: they spell none.
fn plain_port(port: &str, protocol: &str) -> Option<Port>
    ensures { MatchOption result (IsErr (port_of port.now protocol.now)) (λ read. port_of port.now protocol.now ≡ Ok read) }
{
    let range = read_ports(port).ok()?;
    let proto = read_port_proto(protocol).ok()?;
    Some(Port { range, proto })
}

/// The protocol that an argument names. None: it names none.
fn plain_protocol(protocol: &str) -> Option<Proto>
    ensures { MatchOption result (proto protocol.now ≡ None) (λ read. proto protocol.now ≡ Some read) }
{
    match read_proto(protocol) {
        Ok(read) => Some(read),
        Err(_) => None,
    }
}

/// `queryInterface`, without memory: whether a zone has the interface. None: the query is refused, or it asks for a source. An empty
/// zone is the default zone.
#[tactic(auto, unfolding(crate::specs::Bindings::query_binding, crate::specs::Reading::look_up, crate::specs::Reading::entry_of))]
pub fn interface_flag(settings: &Settings, zone: &str, word: &BindingWord) -> Option<bool>
    ensures { Flags settings.entry.now (is_interface word.now.kind) result (query_binding settings.entry.now zone.now word.now) }
{
    let found = zone_meant(&settings.runtime.config, zone)?;
    match word.kind {
        BindingKind::Interface => {
            let name = read_iface(word.text.as_str()).ok()?;
            Some(Entry::Interface(name).is_listed(found.zone))
        }
        BindingKind::Source => None,
    }
}
