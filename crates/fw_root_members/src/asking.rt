//! Members that ask.
ghost use Rattle.std.specs.Prelude.{◌≡◌, map, IfOk};
ghost use Rattle.fw_root_members.specs.Changing.{default_zone_member, log_denied_member, panic_mode_member, services_member};

use crate::log_denied::log_denied_text;
use fw_act::{Answer, replied};
use fw_base::{Memory, Seq, Text};
use fw_calls::Reply;
use fw_model::Service;
use fw_settings::Settings;
use std::alloc::Global;

/// `getDefaultZone`: the zone in force of packets that no binding gives one.
pub fn default_zone_member(alloc: Global, settings: &Settings) -> Result<Answer, Memory>
    ensures { IfOk result (λ answer. default_zone_member settings.entry.now ≡ record { signals = answer.signals; reply = answer.reply; after = settings.entry.now }) }
{
    let zone = Text::of(alloc, settings.runtime.config.default_zone.as_str())?;
    Ok(replied(alloc, Reply::Text(zone)))
}

/// `getLogDenied`: which denied packets are logged.
pub fn log_denied_member(alloc: Global, settings: &Settings) -> Result<Answer, Memory>
    ensures { IfOk result (λ answer. log_denied_member settings.entry.now ≡ record { signals = answer.signals; reply = answer.reply; after = settings.entry.now }) }
{
    let word = Text::of(alloc, log_denied_text(settings.runtime.config.log_denied))?;
    Ok(replied(alloc, Reply::Text(word)))
}

/// `queryPanicMode`: whether all packets are dropped. It takes no memory.
pub fn panic_mode_member(alloc: Global, settings: &Settings) -> Answer
    ensures { panic_mode_member settings.entry.now ≡ record { signals = result.signals; reply = result.reply; after = settings.entry.now } }
{
    replied(alloc, Reply::Bool(settings.runtime.panic))
}

fn service_names(alloc: Global, services: &[Service]) -> Result<Seq<Text>, Memory>
    ensures { IfOk result (λ names. names ≡ map (λ service. service.name) services.now) }
{
    let mut names = Seq::new(alloc);
    for service in services {
        names.push(Text::of(alloc, service.name.as_str())?)?;
    }
    Ok(names)
}

/// `listServices`: the names of all services, as they are listed.
pub fn services_member(alloc: Global, settings: &Settings) -> Result<Answer, Memory>
    ensures { IfOk result (λ answer. services_member settings.entry.now ≡ record { signals = answer.signals; reply = answer.reply; after = settings.entry.now }) }
{
    let names = service_names(alloc, settings.runtime.config.services.as_slice())?;
    Ok(replied(alloc, Reply::Texts(names)))
}
