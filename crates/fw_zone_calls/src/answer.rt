//! What a call answers.
ghost use Rattle.std.specs.Prelude.{◌≡◌, [], ◌∷◌, IfOk, OnErr};
ghost use Rattle.fw_zone_calls.specs.Calls.{answered, call_answered, in_zone};
ghost use Rattle.fw_zone_calls.specs.Inversion.{inversion_call};
ghost use Rattle.fw_answer.specs.Refusals.{Answers};
ghost use Rattle.fw_zone_calls.specs.Settings.{setting_call};

use super::active::active_zones;
use super::binding::{binding_call, change_zone_call, zone_of_call};
use super::inversion::inversion_call;
use super::settings::setting_call;
use super::texts::{service_names, zone_names};
use super::zones::find_zone;
use fw_answer::{Answer, Refusal, Stop, value_answer};
use fw_base::{Memory, Seq, Text};
use fw_call::{SettingWords, Verb, ZoneCall};
use fw_model::Config;
use fw_told::{Reply, Value};
use std::alloc::Global;

/// What a call on zones answers; it changes the configuration as the call says (firewalld.dbus(5)).
///
/// A call that is refused changes nothing, and its reply names the reason and what is refused. The call itself refuses
/// for want of memory alone; the configuration is then as before.
pub fn answer_call(alloc: Global, config: &mut Config, call: &ZoneCall) -> Result<Answer, Memory>
    ensures answered { IfOk result (λ answer. answered config.old call.now ≡ record { signals = answer.signals; reply = answer.reply; after = config.new }) }
    ensures memory { OnErr result (config.new ≡ config.old) }
{
    match answer_or_refusal(alloc, config, call) {
        Ok(answer) => Ok(answer),
        Err(Stop::Refused(Refusal { code, subject })) => Ok(Answer {
            signals: Seq::new(alloc),
            reply: Reply::Refused { code, subject },
        }),
        Err(Stop::Memory) => Err(Memory),
    }
}

#[tactic(auto, unfolding(crate::specs::Calls::call_answered))]
fn answer_or_refusal(alloc: Global, config: &mut Config, call: &ZoneCall) -> Result<Answer, Stop>
    ensures { Answers config.old config.new result (call_answered config.old call.now) }
{
    match call {
        ZoneCall::Setting {
            verb,
            zone,
            setting,
        } => setting_in(alloc, config, *verb, zone.as_str(), setting),
        ZoneCall::Inversion { verb, zone } => inversion_in(alloc, config, *verb, zone.as_str()),
        ZoneCall::Binding {
            verb,
            zone,
            binding,
        } => binding_call(alloc, config, *verb, zone.as_str(), binding),
        ZoneCall::ChangeZone { zone, binding } => {
            change_zone_call(alloc, config, zone.as_str(), binding)
        }
        ZoneCall::ZoneOf { binding } => zone_of_call(alloc, config, binding),
        ZoneCall::Zones => {
            let names = zone_names(alloc, config.zones.as_slice())?;
            Ok(value_answer(alloc, Value::Texts(names))?)
        }
        ZoneCall::ActiveZones => {
            let zones = active_zones(alloc, config.zones.as_slice())?;
            Ok(value_answer(alloc, Value::ActiveZones(zones))?)
        }
        ZoneCall::DefaultZone => {
            let name = Text::of(alloc, config.default_zone.as_str())?;
            Ok(value_answer(alloc, Value::Text(name))?)
        }
        ZoneCall::Services => {
            let names = service_names(alloc, config.services.as_slice())?;
            Ok(value_answer(alloc, Value::Texts(names))?)
        }
    }
}

fn setting_in(
    alloc: Global,
    config: &mut Config,
    verb: Verb,
    zone: &str,
    words: &SettingWords,
) -> Result<Answer, Stop>
    ensures { Answers config.old config.new result (in_zone config.old zone.now (λ zone. setting_call config.old.services config.old.ipsets zone verb words.now)) }
{
    let found = find_zone(alloc, config, zone)?;
    let place = found.place;
    let services = config.services.as_slice();
    let ipsets = config.ipsets.as_slice();
    setting_call(
        alloc,
        services,
        ipsets,
        config.zones.get_mut(place),
        verb,
        words,
    )
}

fn inversion_in(alloc: Global, config: &mut Config, verb: Verb, zone: &str) -> Result<Answer, Stop>
    ensures { Answers config.old config.new result (in_zone config.old zone.now (λ zone. inversion_call zone verb)) }
{
    let found = find_zone(alloc, config, zone)?;
    let place = found.place;
    inversion_call(alloc, config.zones.get_mut(place), verb)
}
