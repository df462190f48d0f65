//! Members that change the firewall as a whole.
ghost use Rattle.std.specs.Prelude.{◌≡◌, [], IfOk, OnErr};
ghost use Rattle.fw_act.specs.Acts.{Acts};
ghost use Rattle.fw_root_members.specs.Changing.{default_zone_changed, disable_panic_member, enable_panic_member, has_zone, log_denied_changed, reload_member, set_default_zone_member, set_log_denied_member, with_default_zone, with_log_denied};
ghost use Rattle.fw_root_members.specs.Reloading.{reloaded, reloaded_config};
ghost use Rattle.fw_settings.specs.Parts.{with_config, with_timers};

use crate::log_denied::{read_log_denied, same_log_denied};
use crate::reloading::reloaded_config;
use crate::signals::{plain, with_text};
use fw_act::{Answer, Stop, require, told};
use fw_base::{Memory, Seq, Text};
use fw_calls::{Reply, Signal, SignalKind};
use fw_model::{Code, Config, LogDenied};
use fw_settings::Settings;
use fw_timed::Timers;
use std::alloc::Global;

fn has_zone(config: &Config, name: &str) -> bool
    ensures { result ≡ has_zone config.now name.now }
{
    config
        .zones
        .as_slice()
        .iter()
        .any(|zone| zone.name.as_str() == name)
}

/// `setDefaultZone`: another zone for packets that no binding gives one, in force and in the permanent settings.
///
/// Refuses a zone that either hasn't, and the one that is in force; nothing changes then.
#[tactic(auto, unfolding(crate::specs::Changing::set_default_zone_member))]
pub fn set_default_zone_member(
    alloc: Global,
    settings: &mut Settings,
    zone: &str,
) -> Result<Answer, Stop>
    ensures acts { Acts settings.new result (set_default_zone_member settings.old zone.now) }
    ensures err { OnErr result (settings.new ≡ settings.old) }
{
    require(
        alloc,
        has_zone(&settings.runtime.config, zone),
        Code::InvalidZone,
        zone,
    )?;
    require(
        alloc,
        has_zone(&settings.permanent, zone),
        Code::InvalidZone,
        zone,
    )?;
    require(
        alloc,
        settings.runtime.config.default_zone.as_str() != zone,
        Code::ZoneAlreadySet,
        zone,
    )?;
    let in_force = Text::of(alloc, zone)?;
    let kept = Text::of(alloc, zone)?;
    let answer = default_zone_changed(alloc, zone)?;
    set_default_zone(settings, in_force, kept);
    Ok(answer)
}

/// The answer that packets have another default zone.
fn default_zone_changed(alloc: Global, zone: &str) -> Result<Answer, Memory>
    ensures { IfOk result (λ answer. answer ≡ default_zone_changed zone.now) }
{
    let signal = with_text(alloc, SignalKind::RootDefaultZoneChanged, zone)?;
    told(alloc, signal, Reply::None)
}

/// Another default zone, in force and in the permanent settings. It takes no memory.
fn set_default_zone(settings: &mut Settings, in_force: Text, kept: Text)
    ensures { in_force ≡ kept → settings.new ≡ with_default_zone settings.old in_force }
{
    settings.runtime.config.default_zone = in_force;
    settings.permanent.default_zone = kept;
}

/// The answer that denied packets are logged otherwise, and that the firewall was reloaded.
fn log_denied_changed(alloc: Global, value: &str) -> Result<Answer, Memory>
    ensures { IfOk result (λ answer. answer ≡ log_denied_changed value.now) }
{
    let mut signals = Seq::new(alloc);
    signals.push(with_text(alloc, SignalKind::RootLogDeniedChanged, value)?)?;
    signals.push(plain(alloc, SignalKind::RootReloaded))?;
    Ok(Answer {
        signals,
        reply: Reply::None,
    })
}

/// A configuration that was made for a reload comes into force, and timers are lost. It takes no memory.
fn come_into_force(alloc: Global, settings: &mut Settings, config: Config)
    ensures { settings.new ≡ with_timers (with_config settings.old config) [] }
{
    settings.runtime.config = config;
    settings.timers = Timers::new(alloc);
}

/// The same, and denied packets are logged otherwise. It takes no memory.
#[tactic(auto, unfolding(crate::specs::Reloading::reloaded))]
fn log_otherwise(alloc: Global, settings: &mut Settings, denied: LogDenied, config: Config)
    ensures { config ≡ reloaded_config settings.old.permanent settings.old.runtime.config
        → settings.new ≡ reloaded (with_log_denied settings.old denied) }
{
    let mut config = config;
    config.log_denied = denied;
    settings.permanent.log_denied = denied;
    come_into_force(alloc, settings, config);
}

/// `setLogDenied`: denied packets are logged otherwise, in force and in the permanent settings, and the firewall is reloaded.
///
/// Refuses another word than `off`, `all`, `unicast`, `broadcast` and `multicast`, and the one that is in force; nothing changes then.
#[tactic(auto, unfolding(crate::specs::Changing::set_log_denied_member))]
pub fn set_log_denied_member(
    alloc: Global,
    settings: &mut Settings,
    value: &str,
) -> Result<Answer, Stop>
    ensures acts { Acts settings.new result (set_log_denied_member settings.old value.now) }
    ensures err { OnErr result (settings.new ≡ settings.old) }
{
    let denied = read_log_denied(alloc, value)?;
    require(
        alloc,
        !same_log_denied(settings.runtime.config.log_denied, denied),
        Code::AlreadySet,
        value,
    )?;
    let config = reloaded_config(alloc, &settings.permanent, &settings.runtime.config)?;
    let answer = log_denied_changed(alloc, value)?;
    log_otherwise(alloc, settings, denied, config);
    Ok(answer)
}

/// `enablePanicMode`: all packets are dropped. Refuses where they are already; nothing changes then.
#[tactic(auto, unfolding(crate::specs::Changing::enable_panic_member))]
pub fn enable_panic_member(alloc: Global, settings: &mut Settings) -> Result<Answer, Stop>
    ensures acts { Acts settings.new result (enable_panic_member settings.old) }
    ensures err { OnErr result (settings.new ≡ settings.old) }
{
    require(
        alloc,
        !settings.runtime.panic,
        Code::AlreadyEnabled,
        "panic",
    )?;
    let answer = told(
        alloc,
        plain(alloc, SignalKind::RootPanicModeEnabled),
        Reply::None,
    )?;
    settings.runtime.panic = true;
    Ok(answer)
}

/// `disablePanicMode`: packets go their way again. Refuses where they do already; nothing changes then.
#[tactic(auto, unfolding(crate::specs::Changing::disable_panic_member))]
pub fn disable_panic_member(alloc: Global, settings: &mut Settings) -> Result<Answer, Stop>
    ensures acts { Acts settings.new result (disable_panic_member settings.old) }
    ensures err { OnErr result (settings.new ≡ settings.old) }
{
    require(alloc, settings.runtime.panic, Code::NotEnabled, "panic")?;
    let answer = told(
        alloc,
        plain(alloc, SignalKind::RootPanicModeDisabled),
        Reply::None,
    )?;
    settings.runtime.panic = false;
    Ok(answer)
}

/// `reload` and `completeReload`: the permanent settings come into force. Panic mode stays, and so do interfaces that the permanent
/// settings bind nowhere; settings that would end by themselves are gone.
///
/// Refuses for want of memory alone; nothing changes then.
#[tactic(auto, unfolding(crate::specs::Reloading::reloaded))]
pub fn reload_member(alloc: Global, settings: &mut Settings) -> Result<Answer, Memory>
    ensures acts { IfOk result (λ answer. reload_member settings.old ≡ record { signals = answer.signals; reply = answer.reply; after = settings.new }) }
    ensures err { OnErr result (settings.new ≡ settings.old) }
{
    let config = reloaded_config(alloc, &settings.permanent, &settings.runtime.config)?;
    let answer = told(alloc, plain(alloc, SignalKind::RootReloaded), Reply::None)?;
    come_into_force(alloc, settings, config);
    Ok(answer)
}
