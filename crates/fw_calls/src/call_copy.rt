//! Copies of calls.
use super::{
    BindingWord, Call, ConfigCall, IpsetCall, ObjectCall, PolicyCall, RootCall, SettingWords,
    ZoneCall,
};
use fw_base::{Memory, TryCopy};
use std::alloc::Global;

impl TryCopy for Call {
    fn copy(&self, alloc: Global) -> Result<Call, Memory> {
        match self {
            Call::Zone(call) => Ok(Call::Zone(call.copy(alloc)?)),
            Call::Policy(call) => Ok(Call::Policy(call.copy(alloc)?)),
            Call::Ipset(call) => Ok(Call::Ipset(call.copy(alloc)?)),
            Call::Root(call) => Ok(Call::Root(call.copy(alloc)?)),
            Call::Config(call) => Ok(Call::Config(call.copy(alloc)?)),
            Call::ConfigZone { number, call } => Ok(Call::ConfigZone {
                number: *number,
                call: call.copy(alloc)?,
            }),
            Call::ConfigPolicy { number, call } => Ok(Call::ConfigPolicy {
                number: *number,
                call: call.copy(alloc)?,
            }),
        }
    }
}

impl TryCopy for ZoneCall {
    fn copy(&self, alloc: Global) -> Result<ZoneCall, Memory> {
        match self {
            ZoneCall::Setting {
                verb,
                zone,
                setting,
            } => Ok(ZoneCall::Setting {
                verb: *verb,
                zone: zone.copy(alloc)?,
                setting: setting.copy(alloc)?,
            }),
            ZoneCall::Inversion { verb, zone } => Ok(ZoneCall::Inversion {
                verb: *verb,
                zone: zone.copy(alloc)?,
            }),
            ZoneCall::Binding {
                verb,
                zone,
                binding,
            } => Ok(ZoneCall::Binding {
                verb: *verb,
                zone: zone.copy(alloc)?,
                binding: binding.copy(alloc)?,
            }),
            ZoneCall::ZoneOf { binding } => Ok(ZoneCall::ZoneOf {
                binding: binding.copy(alloc)?,
            }),
            ZoneCall::Zones => Ok(ZoneCall::Zones),
            ZoneCall::ActiveZones => Ok(ZoneCall::ActiveZones),
            ZoneCall::Settings { zone } => Ok(ZoneCall::Settings {
                zone: zone.copy(alloc)?,
            }),
            ZoneCall::SetSettings { zone, settings } => Ok(ZoneCall::SetSettings {
                zone: zone.copy(alloc)?,
                settings: settings.copy(alloc)?,
            }),
        }
    }
}

impl TryCopy for SettingWords {
    fn copy(&self, alloc: Global) -> Result<SettingWords, Memory> {
        match self {
            SettingWords::Service { name } => Ok(SettingWords::Service {
                name: name.copy(alloc)?,
            }),
            SettingWords::Port { port, protocol } => Ok(SettingWords::Port {
                port: port.copy(alloc)?,
                protocol: protocol.copy(alloc)?,
            }),
            SettingWords::SourcePort { port, protocol } => Ok(SettingWords::SourcePort {
                port: port.copy(alloc)?,
                protocol: protocol.copy(alloc)?,
            }),
            SettingWords::Protocol { protocol } => Ok(SettingWords::Protocol {
                protocol: protocol.copy(alloc)?,
            }),
            SettingWords::IcmpBlock { name } => Ok(SettingWords::IcmpBlock {
                name: name.copy(alloc)?,
            }),
            SettingWords::Masquerade => Ok(SettingWords::Masquerade),
            SettingWords::ForwardPort {
                port,
                protocol,
                to_port,
                to_address,
            } => Ok(SettingWords::ForwardPort {
                port: port.copy(alloc)?,
                protocol: protocol.copy(alloc)?,
                to_port: to_port.copy(alloc)?,
                to_address: to_address.copy(alloc)?,
            }),
            SettingWords::RichRule { rule } => Ok(SettingWords::RichRule {
                rule: rule.copy(alloc)?,
            }),
        }
    }
}

impl TryCopy for BindingWord {
    fn copy(&self, alloc: Global) -> Result<BindingWord, Memory> {
        Ok(BindingWord {
            kind: self.kind,
            text: self.text.copy(alloc)?,
        })
    }
}

impl TryCopy for PolicyCall {
    fn copy(&self, alloc: Global) -> Result<PolicyCall, Memory> {
        match self {
            PolicyCall::Policies => Ok(PolicyCall::Policies),
            PolicyCall::ActivePolicies => Ok(PolicyCall::ActivePolicies),
            PolicyCall::Settings { policy } => Ok(PolicyCall::Settings {
                policy: policy.copy(alloc)?,
            }),
            PolicyCall::SetSettings { policy, settings } => Ok(PolicyCall::SetSettings {
                policy: policy.copy(alloc)?,
                settings: settings.copy(alloc)?,
            }),
        }
    }
}

impl TryCopy for IpsetCall {
    fn copy(&self, alloc: Global) -> Result<IpsetCall, Memory> {
        match self {
            IpsetCall::Ipsets => Ok(IpsetCall::Ipsets),
            IpsetCall::HasIpset { ipset } => Ok(IpsetCall::HasIpset {
                ipset: ipset.copy(alloc)?,
            }),
            IpsetCall::Entry { verb, ipset, entry } => Ok(IpsetCall::Entry {
                verb: *verb,
                ipset: ipset.copy(alloc)?,
                entry: entry.copy(alloc)?,
            }),
            IpsetCall::Entries { ipset } => Ok(IpsetCall::Entries {
                ipset: ipset.copy(alloc)?,
            }),
            IpsetCall::SetEntries { ipset, entries } => Ok(IpsetCall::SetEntries {
                ipset: ipset.copy(alloc)?,
                entries: entries.copy(alloc)?,
            }),
        }
    }
}

impl TryCopy for RootCall {
    fn copy(&self, alloc: Global) -> Result<RootCall, Memory> {
        match self {
            RootCall::DefaultZone => Ok(RootCall::DefaultZone),
            RootCall::SetDefaultZone { zone } => Ok(RootCall::SetDefaultZone {
                zone: zone.copy(alloc)?,
            }),
            RootCall::LogDenied => Ok(RootCall::LogDenied),
            RootCall::SetLogDenied { value } => Ok(RootCall::SetLogDenied {
                value: value.copy(alloc)?,
            }),
            RootCall::PanicMode => Ok(RootCall::PanicMode),
            RootCall::EnablePanicMode => Ok(RootCall::EnablePanicMode),
            RootCall::DisablePanicMode => Ok(RootCall::DisablePanicMode),
            RootCall::Services => Ok(RootCall::Services),
            RootCall::Reload => Ok(RootCall::Reload),
            RootCall::CompleteReload => Ok(RootCall::CompleteReload),
            RootCall::RuntimeToPermanent => Ok(RootCall::RuntimeToPermanent),
        }
    }
}

impl TryCopy for ConfigCall {
    fn copy(&self, alloc: Global) -> Result<ConfigCall, Memory> {
        match self {
            ConfigCall::ZoneNames => Ok(ConfigCall::ZoneNames),
            ConfigCall::PolicyNames => Ok(ConfigCall::PolicyNames),
            ConfigCall::ZoneByName { zone } => Ok(ConfigCall::ZoneByName {
                zone: zone.copy(alloc)?,
            }),
            ConfigCall::PolicyByName { policy } => Ok(ConfigCall::PolicyByName {
                policy: policy.copy(alloc)?,
            }),
            ConfigCall::AddZone { name, settings } => Ok(ConfigCall::AddZone {
                name: name.copy(alloc)?,
                settings: settings.copy(alloc)?,
            }),
            ConfigCall::AddPolicy { name, settings } => Ok(ConfigCall::AddPolicy {
                name: name.copy(alloc)?,
                settings: settings.copy(alloc)?,
            }),
        }
    }
}

impl TryCopy for ObjectCall {
    fn copy(&self, alloc: Global) -> Result<ObjectCall, Memory> {
        match self {
            ObjectCall::Settings => Ok(ObjectCall::Settings),
            ObjectCall::Update { settings } => Ok(ObjectCall::Update {
                settings: settings.copy(alloc)?,
            }),
            ObjectCall::Remove => Ok(ObjectCall::Remove),
        }
    }
}
