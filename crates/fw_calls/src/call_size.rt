//! Sizes of calls, with the texts of their arguments as they came.
ghost use Rattle.std.specs.Prelude.{◌≡◌, ◌+◌, length};
ghost use Rattle.fw_calls.specs.Weight.{capped, dict_size};

use super::dict_size::texts_size;
use super::size::{Measure, sum};
use super::{
    Call, ConfigCall, Dict, IpsetCall, ObjectCall, PolicyCall, RootCall, SettingVerb, SettingWords,
    ZoneCall,
};
use fw_base::Text;

/// The size of two texts.
#[tactic(auto, using(crate::proofs::Capped::capped_sum))]
fn two_texts(one: &Text, other: &Text) -> u64
    ensures { result ≡ capped (length one.now + length other.now) }
{
    sum(one.size(), other.size())
}

/// The size of a name and of a dict.
#[tactic(auto, using(crate::proofs::Capped::capped_sum))]
fn name_and_dict(name: &Text, dict: &Dict) -> u64
    ensures { result ≡ capped (length name.now + dict_size dict.now) }
{
    sum(name.size(), dict.size())
}

impl Measure for SettingVerb {
    ghost use Rattle.fw_calls.specs.Weight.{verb_size};

    ghost size = { verb_size };

    fn size(&self) -> u64 {
        match self {
            SettingVerb::Add { timeout: _ } => 8,
            SettingVerb::Remove => 0,
            SettingVerb::Query => 0,
        }
    }
}

impl Measure for SettingWords {
    ghost use Rattle.fw_calls.specs.Weight.{words_size};

    ghost size = { words_size };

    #[tactic(auto, using(crate::proofs::Capped::capped_sum))]
    fn size(&self) -> u64 {
        match self {
            SettingWords::Service { name } => name.size(),
            SettingWords::Port { port, protocol } => two_texts(port, protocol),
            SettingWords::SourcePort { port, protocol } => two_texts(port, protocol),
            SettingWords::Protocol { protocol } => protocol.size(),
            SettingWords::IcmpBlock { name } => name.size(),
            SettingWords::Masquerade => 0,
            SettingWords::ForwardPort {
                port,
                protocol,
                to_port,
                to_address,
            } => sum(two_texts(port, protocol), two_texts(to_port, to_address)),
            SettingWords::RichRule { rule } => rule.size(),
        }
    }
}

impl Measure for ZoneCall {
    ghost use Rattle.fw_calls.specs.Weight.{zone_call_size};

    ghost size = { zone_call_size };

    #[tactic(auto, unfolding(crate::specs::Weight::zone_call_size), using(crate::proofs::Capped::capped_sum))]
    fn size(&self) -> u64 {
        match self {
            ZoneCall::Setting {
                verb,
                zone,
                setting,
            } => sum(sum(zone.size(), setting.size()), verb.size()),
            ZoneCall::Inversion { verb: _, zone } => zone.size(),
            ZoneCall::Binding {
                verb: _,
                zone,
                binding,
            } => two_texts(zone, &binding.text),
            ZoneCall::ZoneOf { binding } => binding.text.size(),
            ZoneCall::Zones => 0,
            ZoneCall::ActiveZones => 0,
            ZoneCall::Settings { zone } => zone.size(),
            ZoneCall::SetSettings { zone, settings } => name_and_dict(zone, settings),
        }
    }
}

impl Measure for PolicyCall {
    ghost use Rattle.fw_calls.specs.Weight.{policy_call_size};

    ghost size = { policy_call_size };

    #[tactic(auto, unfolding(crate::specs::Weight::policy_call_size))]
    fn size(&self) -> u64 {
        match self {
            PolicyCall::Policies => 0,
            PolicyCall::ActivePolicies => 0,
            PolicyCall::Settings { policy } => policy.size(),
            PolicyCall::SetSettings { policy, settings } => name_and_dict(policy, settings),
        }
    }
}

impl Measure for IpsetCall {
    ghost use Rattle.fw_calls.specs.Weight.{ipset_call_size};

    ghost size = { ipset_call_size };

    #[tactic(auto, unfolding(crate::specs::Weight::ipset_call_size), using(crate::proofs::Capped::capped_sum))]
    fn size(&self) -> u64 {
        match self {
            IpsetCall::Ipsets => 0,
            IpsetCall::HasIpset { ipset } => ipset.size(),
            IpsetCall::Entry {
                verb: _,
                ipset,
                entry,
            } => two_texts(ipset, entry),
            IpsetCall::Entries { ipset } => ipset.size(),
            IpsetCall::SetEntries { ipset, entries } => {
                sum(ipset.size(), texts_size(entries.as_slice()))
            }
        }
    }
}

impl Measure for RootCall {
    ghost use Rattle.fw_calls.specs.Weight.{root_call_size};

    ghost size = { root_call_size };

    #[tactic(auto, unfolding(crate::specs::Weight::root_call_size))]
    fn size(&self) -> u64 {
        match self {
            RootCall::DefaultZone => 0,
            RootCall::SetDefaultZone { zone } => zone.size(),
            RootCall::LogDenied => 0,
            RootCall::SetLogDenied { value } => value.size(),
            RootCall::PanicMode => 0,
            RootCall::EnablePanicMode => 0,
            RootCall::DisablePanicMode => 0,
            RootCall::Services => 0,
            RootCall::Reload => 0,
            RootCall::CompleteReload => 0,
            RootCall::RuntimeToPermanent => 0,
        }
    }
}

impl Measure for ConfigCall {
    ghost use Rattle.fw_calls.specs.Weight.{config_call_size};

    ghost size = { config_call_size };

    #[tactic(auto, unfolding(crate::specs::Weight::config_call_size))]
    fn size(&self) -> u64 {
        match self {
            ConfigCall::ZoneNames => 0,
            ConfigCall::PolicyNames => 0,
            ConfigCall::ZoneByName { zone } => zone.size(),
            ConfigCall::PolicyByName { policy } => policy.size(),
            ConfigCall::AddZone { name, settings } => name_and_dict(name, settings),
            ConfigCall::AddPolicy { name, settings } => name_and_dict(name, settings),
        }
    }
}

impl Measure for ObjectCall {
    ghost use Rattle.fw_calls.specs.Weight.{object_call_size};

    ghost size = { object_call_size };

    #[tactic(auto, unfolding(crate::specs::Weight::object_call_size), using(crate::proofs::Capped::capped_behind))]
    fn size(&self) -> u64 {
        match self {
            ObjectCall::Settings => 8,
            ObjectCall::Update { settings } => sum(8, settings.size()),
            ObjectCall::Remove => 8,
        }
    }
}

impl Measure for Call {
    ghost use Rattle.fw_calls.specs.Weight.{call_size};

    ghost size = { call_size };

    #[tactic(auto, unfolding(crate::specs::Weight::call_size))]
    fn size(&self) -> u64 {
        match self {
            Call::Zone(call) => call.size(),
            Call::Policy(call) => call.size(),
            Call::Ipset(call) => call.size(),
            Call::Root(call) => call.size(),
            Call::Config(call) => call.size(),
            Call::ConfigZone { number: _, call } => call.size(),
            Call::ConfigPolicy { number: _, call } => call.size(),
        }
    }
}
