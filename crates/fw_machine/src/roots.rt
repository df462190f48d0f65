//! Calls on the firewall as a whole.
ghost use Rattle.std.specs.Prelude.{◌≡◌, false};
ghost use Rattle.fw_act.specs.Acts.{Acts};
ghost use Rattle.fw_machine.specs.Asking.{Tells};
ghost use Rattle.fw_machine.specs.Roots.{root_asks, root_called, root_takes_none};
ghost use Rattle.fw_zone_members.specs.Flags.{Flags};

use fw_act::{Answer, Stop};
use fw_calls::RootCall;
use fw_root_members::{
    default_zone_member, disable_panic_member, enable_panic_member, log_denied_member,
    panic_mode_member, reload_member, services_member, set_default_zone_member,
    set_log_denied_member, to_permanent_member,
};
use fw_settings::Settings;
use std::alloc::Global;

/// Whether panic mode is on, where a call asks that; it takes no memory.
#[tactic(auto, unfolding(crate::specs::Roots::root_called, crate::specs::Roots::root_takes_none))]
pub fn root_flag(settings: &Settings, call: &RootCall) -> Option<bool>
    ensures { Flags settings.entry.now (root_takes_none call.now) result (root_called settings.entry.now call.now) }
{
    match call {
        RootCall::PanicMode => Some(settings.runtime.panic),
        RootCall::DefaultZone
        | RootCall::SetDefaultZone { .. }
        | RootCall::LogDenied
        | RootCall::SetLogDenied { .. }
        | RootCall::EnablePanicMode
        | RootCall::DisablePanicMode
        | RootCall::Services
        | RootCall::Reload
        | RootCall::CompleteReload
        | RootCall::RuntimeToPermanent => None,
    }
}

/// What a call on the firewall as a whole is told, where it only asks.
#[tactic(auto, unfolding(crate::specs::Roots::root_called, crate::specs::Roots::root_asks))]
pub fn ask_root(alloc: Global, settings: &Settings, call: &RootCall) -> Result<Option<Answer>, Stop>
    ensures { Tells settings.entry.now (root_asks call.now) result (root_called settings.entry.now call.now) }
{
    match call {
        RootCall::DefaultZone => Ok(Some(default_zone_member(alloc, settings)?)),
        RootCall::LogDenied => Ok(Some(log_denied_member(alloc, settings)?)),
        RootCall::PanicMode => Ok(Some(panic_mode_member(alloc, settings))),
        RootCall::Services => Ok(Some(services_member(alloc, settings)?)),
        RootCall::SetDefaultZone { .. }
        | RootCall::SetLogDenied { .. }
        | RootCall::EnablePanicMode
        | RootCall::DisablePanicMode
        | RootCall::Reload
        | RootCall::CompleteReload
        | RootCall::RuntimeToPermanent => Ok(None),
    }
}

/// Carries out a call on the firewall as a whole that doesn't only ask.
#[tactic(auto, unfolding(crate::specs::Roots::root_called, crate::specs::Roots::root_asks))]
pub fn change_root(alloc: Global, settings: &mut Settings, call: &RootCall) -> Result<Answer, Stop>
    requires { root_asks call.now ≡ false }
    ensures { Acts settings.new result (root_called settings.old call.now) }
{
    match call {
        RootCall::SetDefaultZone { zone } => set_default_zone_member(
            alloc,
            settings,
            zone.as_str(),
        ),
        RootCall::SetLogDenied { value } => set_log_denied_member(alloc, settings, value.as_str()),
        RootCall::EnablePanicMode => enable_panic_member(alloc, settings),
        RootCall::DisablePanicMode => disable_panic_member(alloc, settings),
        RootCall::Reload | RootCall::CompleteReload => Ok(reload_member(alloc, settings)?),
        RootCall::RuntimeToPermanent => Ok(to_permanent_member(alloc, settings)?),
        RootCall::DefaultZone | RootCall::LogDenied | RootCall::PanicMode | RootCall::Services => {
            unreachable!()
        }
    }
}
