//! Settings as the arguments of calls name them.
ghost use Rattle.fw_act.specs.Acts.{Reads};
ghost use Rattle.fw_addr.specs.Protocols.{proto};
ghost use Rattle.fw_zone_members.specs.Reading.{icmp_of, protocol_from, service_of, setting_of};

use super::port::{read_forward, read_port};
use super::rich::read_rule;
use fw_act::{Stop, refuse};
use fw_addr::{icmp_numbers, read_proto};
use fw_base::Text;
use fw_calls::SettingWords;
use fw_model::{Code, Config, Service, Setting};
use fw_service::knows;
use std::alloc::Global;

/// The setting that a call's arguments spell. A service is one of those of the configuration, and so are those and the ipsets of a rule.
#[tactic(auto, unfolding(crate::specs::Reading::setting_of))]
pub fn read_setting(alloc: Global, config: &Config, words: &SettingWords) -> Result<Setting, Stop>
    ensures { Reads result (setting_of config.now words.now) }
{
    match words {
        SettingWords::Service { name } => {
            read_service(alloc, config.services.as_slice(), name.as_str())
        }
        SettingWords::Port { port, protocol } => {
            let port = read_port(alloc, port.as_str(), protocol.as_str())?;
            Ok(Setting::Port(port))
        }
        SettingWords::SourcePort { port, protocol } => {
            let port = read_port(alloc, port.as_str(), protocol.as_str())?;
            Ok(Setting::SourcePort(port))
        }
        SettingWords::Protocol { protocol } => read_protocol(alloc, protocol.as_str()),
        SettingWords::IcmpBlock { name } => read_icmp(alloc, name.as_str()),
        SettingWords::Masquerade => Ok(Setting::Masquerade),
        SettingWords::ForwardPort {
            port,
            protocol,
            to_port,
            to_address,
        } => {
            let forward = read_forward(
                alloc,
                port.as_str(),
                protocol.as_str(),
                to_port.as_str(),
                to_address.as_str(),
            )?;
            Ok(Setting::Forward(forward))
        }
        SettingWords::RichRule { rule } => {
            let rule = read_rule(alloc, config, rule.as_str())?;
            Ok(Setting::Rich(rule))
        }
    }
}

/// One of these services, by its name.
pub fn read_service(alloc: Global, services: &[Service], name: &str) -> Result<Setting, Stop>
    ensures { Reads result (service_of services.now name.now) }
{
    if knows(services, name) {
        Ok(Setting::Service(Text::of(alloc, name)?))
    } else {
        Err(Stop::Refused(refuse(alloc, Code::InvalidService, name)?))
    }
}

/// An ICMP type by its name.
pub fn read_icmp(alloc: Global, name: &str) -> Result<Setting, Stop>
    ensures { Reads result (icmp_of name.now) }
{
    if icmp_numbers(name).is_some() {
        Ok(Setting::IcmpBlock(Text::of(alloc, name)?))
    } else {
        Err(Stop::Refused(refuse(alloc, Code::InvalidIcmptype, name)?))
    }
}

/// A protocol by its name or its number.
pub fn read_protocol(alloc: Global, protocol: &str) -> Result<Setting, Stop>
    ensures { Reads result (protocol_from protocol.now (proto protocol.now)) }
{
    match read_proto(protocol) {
        Ok(number) => Ok(Setting::Protocol(number)),
        Err(_) => Err(Stop::Refused(refuse(alloc, Code::InvalidProtocol, protocol)?)),
    }
}
