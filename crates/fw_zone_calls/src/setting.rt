//! Settings as the arguments of calls name them.
ghost use Rattle.std.specs.Prelude.{◌≡◌, ◌++◌, IfOk, OnOk};
ghost use Rattle.fw_addr.specs.Protocols.{proto};
ghost use Rattle.fw_answer.specs.Refusals.{Reads};
ghost use Rattle.fw_zone_calls.specs.Settings.{added_kind, arguments, port_of, port_text, protocol_from, removed_kind, setting_of, setting_text};

use super::rich::read_rule;
use fw_addr::{Proto, icmp_numbers, read_port_proto, read_ports, read_proto};
use fw_answer::{Stop, refuse};
use fw_base::{Memory, Seq, Text};
use fw_call::SettingWords;
use fw_model::{Code, IpSet, Port, Rich, Service};
use fw_rich::print_rich;
use fw_service::knows;
use fw_told::{SignalKind, Value};
use std::alloc::Global;

/// A setting of a zone that is an item of a list.
#[derive(Drop)]
pub enum PlainSetting {
    Port(Port),
    SourcePort(Port),
    Protocol(Proto),
    IcmpBlock(Text),
    Service(Text),
    Rich(Rich),
}

/// The setting that a call's arguments spell; services and ipsets are ones of the configuration's.
pub fn read_setting(
    alloc: Global,
    services: &[Service],
    ipsets: &[IpSet],
    words: &SettingWords,
) -> Result<PlainSetting, Stop>
    ensures { Reads result (setting_of services.now ipsets.now words.now) }
{
    match words {
        SettingWords::Port { port, protocol } => {
            let port = read_port(alloc, port.as_str(), protocol.as_str())?;
            Ok(PlainSetting::Port(port))
        }
        SettingWords::SourcePort { port, protocol } => {
            let port = read_port(alloc, port.as_str(), protocol.as_str())?;
            Ok(PlainSetting::SourcePort(port))
        }
        SettingWords::Protocol { protocol } => read_protocol(alloc, protocol.as_str()),
        SettingWords::IcmpBlock { name } => {
            if icmp_numbers(name.as_str()).is_some() {
                Ok(PlainSetting::IcmpBlock(Text::of(alloc, name.as_str())?))
            } else {
                Err(Stop::Refused(refuse(alloc, Code::InvalidIcmptype, name.as_str())?))
            }
        }
        SettingWords::Service { name } => {
            if knows(services, name.as_str()) {
                Ok(PlainSetting::Service(Text::of(alloc, name.as_str())?))
            } else {
                Err(Stop::Refused(refuse(alloc, Code::InvalidService, name.as_str())?))
            }
        }
        SettingWords::RichRule { rule } => {
            let rule = read_rule(alloc, services, ipsets, rule.as_str())?;
            Ok(PlainSetting::Rich(rule))
        }
    }
}

fn read_protocol(alloc: Global, protocol: &str) -> Result<PlainSetting, Stop>
    ensures { Reads result (protocol_from protocol.now (proto protocol.now)) }
{
    match read_proto(protocol) {
        Ok(number) => Ok(PlainSetting::Protocol(number)),
        Err(_) => Err(Stop::Refused(refuse(alloc, Code::InvalidProtocol, protocol)?)),
    }
}

fn read_port(alloc: Global, port: &str, protocol: &str) -> Result<Port, Stop>
    ensures { Reads result (port_of port.now protocol.now) }
{
    let Ok(range) = read_ports(port) else {
        return Err(Stop::Refused(refuse(alloc, Code::InvalidPort, port)?));
    };
    let Ok(proto) = read_port_proto(protocol) else {
        return Err(Stop::Refused(refuse(alloc, Code::InvalidProtocol, protocol)?));
    };
    Ok(Port { range, proto })
}

impl PlainSetting {
    /// The setting's canonical text, as `80/tcp`.
    pub fn text(&self, alloc: Global) -> Result<Text, Memory>
        ensures { IfOk result (λ text. text ≡ setting_text self.now) }
    {
        match self {
            PlainSetting::Port(port) => port_text(alloc, port),
            PlainSetting::SourcePort(port) => port_text(alloc, port),
            PlainSetting::Protocol(protocol) => {
                Ok(Text::from_string(format!(in alloc; "{protocol}")?))
            }
            PlainSetting::IcmpBlock(name) | PlainSetting::Service(name) => {
                Text::of(alloc, name.as_str())
            }
            PlainSetting::Rich(rule) => print_rich(alloc, rule),
        }
    }

    /// Appends the setting as the arguments of a signal.
    pub fn push_arguments(&self, alloc: Global, values: &mut Seq<Value>) -> Result<(), Memory>
        ensures { OnOk result (values.new ≡ values.old ++ arguments self.now) }
    {
        match self {
            PlainSetting::Port(port) => push_port(alloc, values, port),
            PlainSetting::SourcePort(port) => push_port(alloc, values, port),
            PlainSetting::Protocol(_)
            | PlainSetting::IcmpBlock(_)
            | PlainSetting::Service(_)
            | PlainSetting::Rich(_) => values.push(Value::Text(self.text(alloc)?)),
        }
    }

    /// The signal that it was added.
    pub fn added_kind(&self) -> SignalKind
        ensures { result ≡ added_kind self.now }
    {
        match self {
            PlainSetting::Port(_) => SignalKind::ZonePortAdded,
            PlainSetting::SourcePort(_) => SignalKind::ZoneSourcePortAdded,
            PlainSetting::Protocol(_) => SignalKind::ZoneProtocolAdded,
            PlainSetting::IcmpBlock(_) => SignalKind::ZoneIcmpBlockAdded,
            PlainSetting::Service(_) => SignalKind::ZoneServiceAdded,
            PlainSetting::Rich(_) => SignalKind::ZoneRichRuleAdded,
        }
    }

    /// The signal that it was removed.
    pub fn removed_kind(&self) -> SignalKind
        ensures { result ≡ removed_kind self.now }
    {
        match self {
            PlainSetting::Port(_) => SignalKind::ZonePortRemoved,
            PlainSetting::SourcePort(_) => SignalKind::ZoneSourcePortRemoved,
            PlainSetting::Protocol(_) => SignalKind::ZoneProtocolRemoved,
            PlainSetting::IcmpBlock(_) => SignalKind::ZoneIcmpBlockRemoved,
            PlainSetting::Service(_) => SignalKind::ZoneServiceRemoved,
            PlainSetting::Rich(_) => SignalKind::ZoneRichRuleRemoved,
        }
    }
}

fn port_text(alloc: Global, port: &Port) -> Result<Text, Memory>
    ensures { IfOk result (λ text. text ≡ port_text port.now) }
{
    let Port { range, proto } = *port;
    let proto = proto.as_str();
    Ok(Text::from_string(format!(in alloc; "{range}/{proto}")?))
}

fn push_port(alloc: Global, values: &mut Seq<Value>, port: &Port) -> Result<(), Memory>
    ensures { OnOk result (values.new ≡ values.old ++ arguments (PlainSetting.Port port.now)) }
{
    let Port { range, proto } = *port;
    values.push(Value::Text(Text::from_string(format!(in alloc; "{range}")?)))?;
    values.push(Value::Text(Text::of(alloc, proto.as_str())?))
}
