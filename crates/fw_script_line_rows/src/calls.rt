//! What a call says as a text: its interface, what it does, and its arguments in their order.
use super::dicts::tell_dict;
use super::settings::{tell_binding, tell_setting, tell_setting_verb, tell_texts};
use fw_base::Memory;
use fw_calls::{
    BindingVerb, Call, ConfigCall, IpsetCall, ObjectCall, PolicyCall, RootCall, Verb, ZoneCall,
};

pub fn tell_call(out: &mut String, call: &Call) -> Result<(), Memory> {
    match call {
        Call::Zone(call) => tell_zone_call(out, call),
        Call::Policy(call) => tell_policy_call(out, call),
        Call::Ipset(call) => tell_ipset_call(out, call),
        Call::Root(call) => tell_root_call(out, call),
        Call::Config(call) => tell_config_call(out, call),
        Call::ConfigZone { number, call } => {
            write!(out, "config.zone {number} ")?;
            tell_object_call(out, call)
        }
        Call::ConfigPolicy { number, call } => {
            write!(out, "config.policy {number} ")?;
            tell_object_call(out, call)
        }
    }
}

fn tell_zone_call(out: &mut String, call: &ZoneCall) -> Result<(), Memory> {
    out.push_str("zone ")?;
    match call {
        ZoneCall::Setting {
            verb,
            zone,
            setting,
        } => {
            tell_setting_verb(out, *verb)?;
            write!(out, " [{zone}] ")?;
            tell_setting(out, setting)?;
        }
        ZoneCall::Inversion { verb, zone } => {
            write!(out, "{} [{zone}] icmp-block-inversion", verb_text(*verb))?;
        }
        ZoneCall::Binding {
            verb,
            zone,
            binding,
        } => {
            write!(out, "{} [{zone}] ", binding_verb_text(*verb))?;
            tell_binding(out, binding)?;
        }
        ZoneCall::ZoneOf { binding } => {
            out.push_str("zone-of ")?;
            tell_binding(out, binding)?;
        }
        ZoneCall::Zones => out.push_str("zones")?,
        ZoneCall::ActiveZones => out.push_str("active-zones")?,
        ZoneCall::Settings { zone } => write!(out, "settings [{zone}]")?,
        ZoneCall::SetSettings { zone, settings } => {
            write!(out, "set-settings [{zone}] ")?;
            tell_dict(out, settings)?;
        }
    }
    Ok(())
}

fn verb_text(verb: Verb) -> &'static str {
    match verb {
        Verb::Add => "add",
        Verb::Remove => "remove",
        Verb::Query => "query",
    }
}

fn binding_verb_text(verb: BindingVerb) -> &'static str {
    match verb {
        BindingVerb::Add => "add",
        BindingVerb::Remove => "remove",
        BindingVerb::Query => "query",
        BindingVerb::Change => "change",
    }
}

fn tell_policy_call(out: &mut String, call: &PolicyCall) -> Result<(), Memory> {
    out.push_str("policy ")?;
    match call {
        PolicyCall::Policies => out.push_str("policies")?,
        PolicyCall::ActivePolicies => out.push_str("active-policies")?,
        PolicyCall::Settings { policy } => write!(out, "settings [{policy}]")?,
        PolicyCall::SetSettings { policy, settings } => {
            write!(out, "set-settings [{policy}] ")?;
            tell_dict(out, settings)?;
        }
    }
    Ok(())
}

fn tell_ipset_call(out: &mut String, call: &IpsetCall) -> Result<(), Memory> {
    out.push_str("ipset ")?;
    match call {
        IpsetCall::Ipsets => out.push_str("ipsets")?,
        IpsetCall::HasIpset { ipset } => write!(out, "has [{ipset}]")?,
        IpsetCall::Entry { verb, ipset, entry } => {
            write!(out, "{} [{ipset}] [{entry}]", verb_text(*verb))?;
        }
        IpsetCall::Entries { ipset } => write!(out, "entries [{ipset}]")?,
        IpsetCall::SetEntries { ipset, entries } => {
            write!(out, "set-entries [{ipset}] ")?;
            tell_texts(out, entries.as_slice())?;
        }
    }
    Ok(())
}

fn tell_root_call(out: &mut String, call: &RootCall) -> Result<(), Memory> {
    out.push_str("root ")?;
    match call {
        RootCall::DefaultZone => out.push_str("default-zone")?,
        RootCall::SetDefaultZone { zone } => write!(out, "set-default-zone [{zone}]")?,
        RootCall::LogDenied => out.push_str("log-denied")?,
        RootCall::SetLogDenied { value } => write!(out, "set-log-denied [{value}]")?,
        RootCall::PanicMode => out.push_str("panic-mode")?,
        RootCall::EnablePanicMode => out.push_str("enable-panic-mode")?,
        RootCall::DisablePanicMode => out.push_str("disable-panic-mode")?,
        RootCall::Services => out.push_str("services")?,
        RootCall::Reload => out.push_str("reload")?,
        RootCall::CompleteReload => out.push_str("complete-reload")?,
        RootCall::RuntimeToPermanent => out.push_str("runtime-to-permanent")?,
    }
    Ok(())
}

fn tell_config_call(out: &mut String, call: &ConfigCall) -> Result<(), Memory> {
    out.push_str("config ")?;
    match call {
        ConfigCall::ZoneNames => out.push_str("zone-names")?,
        ConfigCall::PolicyNames => out.push_str("policy-names")?,
        ConfigCall::ZoneByName { zone } => write!(out, "zone [{zone}]")?,
        ConfigCall::PolicyByName { policy } => write!(out, "policy [{policy}]")?,
        ConfigCall::AddZone { name, settings } => {
            write!(out, "add-zone [{name}] ")?;
            tell_dict(out, settings)?;
        }
        ConfigCall::AddPolicy { name, settings } => {
            write!(out, "add-policy [{name}] ")?;
            tell_dict(out, settings)?;
        }
    }
    Ok(())
}

fn tell_object_call(out: &mut String, call: &ObjectCall) -> Result<(), Memory> {
    match call {
        ObjectCall::Settings => out.push_str("settings")?,
        ObjectCall::Update { settings } => {
            out.push_str("update ")?;
            tell_dict(out, settings)?;
        }
        ObjectCall::Remove => out.push_str("remove")?,
    }
    Ok(())
}
