//! The signals of settings, interfaces and sources that come to a zone and leave it.
ghost use Rattle.std.specs.Prelude.{◌≡◌, [], ◌∷◌, ◌++◌, IfOk, OnOk};
ghost use Rattle.fw_zone_edits.specs.Signals.{added_kind, added_signal, bound_kind, entry_signal, moved_kind, removed_kind, removed_signal, unbound_kind};
ghost use Rattle.fw_zone_edits.specs.Texts.{port_args, setting_args};

use super::Entry;
use super::text::{setting_text, to_address_text, to_port_text};
use fw_base::{Memory, Seq, Text};
use fw_calls::{Arg, Signal, SignalKind};
use fw_model::{Forward, Port, Setting};
use std::alloc::Global;

/// The signal that a setting came to a zone, with its timeout in seconds; 0 is for good.
#[tactic(auto, unfolding(crate::specs::Signals::added_signal))]
pub fn added_signal(
    alloc: Global,
    zone: &str,
    setting: &Setting,
    timeout: i32,
) -> Result<Signal, Memory>
    ensures { IfOk result (λ signal. signal ≡ added_signal zone.now setting.now timeout) }
{
    let mut args = zone_args(alloc, zone)?;
    push_setting(alloc, &mut args, setting)?;
    args.push(Arg::Int(timeout))?;
    Ok(Signal {
        kind: added_kind(setting),
        args,
    })
}

/// The signal that a setting left a zone.
#[tactic(auto, unfolding(crate::specs::Signals::removed_signal))]
pub fn removed_signal(alloc: Global, zone: &str, setting: &Setting) -> Result<Signal, Memory>
    ensures { IfOk result (λ signal. signal ≡ removed_signal zone.now setting.now) }
{
    let mut args = zone_args(alloc, zone)?;
    push_setting(alloc, &mut args, setting)?;
    Ok(Signal {
        kind: removed_kind(setting),
        args,
    })
}

/// A signal of this kind, with a zone's name and an interface or a source.
#[tactic(auto, unfolding(crate::specs::Signals::entry_signal))]
pub fn entry_signal(
    alloc: Global,
    kind: SignalKind,
    zone: &str,
    entry: &Entry,
) -> Result<Signal, Memory>
    ensures { IfOk result (λ signal. signal ≡ entry_signal kind zone.now entry.now) }
{
    let mut args = zone_args(alloc, zone)?;
    args.push(Arg::Text(entry.text(alloc)?))?;
    Ok(Signal { kind, args })
}

/// A zone's name as the first argument of a signal.
fn zone_args(alloc: Global, zone: &str) -> Result<Seq<Arg>, Memory>
    ensures { IfOk result (λ args. args ≡ Arg.Text zone.now ∷ []) }
{
    let mut args = Seq::new(alloc);
    args.push(Arg::Text(Text::of(alloc, zone)?))?;
    Ok(args)
}

/// Appends a setting as arguments.
#[tactic(auto, unfolding(crate::specs::Texts::setting_text))]
fn push_setting(alloc: Global, args: &mut Seq<Arg>, setting: &Setting) -> Result<(), Memory>
    ensures { OnOk result (args.new ≡ args.old ++ setting_args setting.now) }
{
    match setting {
        Setting::Port(port) => push_port(alloc, args, port),
        Setting::SourcePort(port) => push_port(alloc, args, port),
        Setting::Forward(forward) => push_forward(alloc, args, forward),
        Setting::Masquerade => Ok(()),
        Setting::Service(_) | Setting::Protocol(_) | Setting::IcmpBlock(_) | Setting::Rich(_) =>
            args.push(Arg::Text(setting_text(alloc, setting)?)),
    }
}

fn push_port(alloc: Global, args: &mut Seq<Arg>, port: &Port) -> Result<(), Memory>
    ensures { OnOk result (args.new ≡ args.old ++ port_args port.now) }
{
    let Port { range, proto } = *port;
    args.push(Arg::Text(Text::from_string(format!(in alloc; "{range}")?)))?;
    args.push(Arg::Text(Text::of(alloc, proto.as_str())?))
}

fn push_forward(alloc: Global, args: &mut Seq<Arg>, forward: &Forward) -> Result<(), Memory>
    ensures { OnOk result (args.new ≡ args.old ++ setting_args (Setting.Forward forward.now)) }
{
    push_port(alloc, args, &forward.port)?;
    args.push(Arg::Text(to_port_text(alloc, forward.to_port)?))?;
    args.push(Arg::Text(to_address_text(alloc, &forward.to_addr)?))
}

fn added_kind(setting: &Setting) -> SignalKind
    ensures { result ≡ added_kind setting.now }
{
    match setting {
        Setting::Service(_) => SignalKind::ZoneServiceAdded,
        Setting::Port(_) => SignalKind::ZonePortAdded,
        Setting::Protocol(_) => SignalKind::ZoneProtocolAdded,
        Setting::SourcePort(_) => SignalKind::ZoneSourcePortAdded,
        Setting::IcmpBlock(_) => SignalKind::ZoneIcmpBlockAdded,
        Setting::Masquerade => SignalKind::ZoneMasqueradeAdded,
        Setting::Forward(_) => SignalKind::ZoneForwardPortAdded,
        Setting::Rich(_) => SignalKind::ZoneRichRuleAdded,
    }
}

fn removed_kind(setting: &Setting) -> SignalKind
    ensures { result ≡ removed_kind setting.now }
{
    match setting {
        Setting::Service(_) => SignalKind::ZoneServiceRemoved,
        Setting::Port(_) => SignalKind::ZonePortRemoved,
        Setting::Protocol(_) => SignalKind::ZoneProtocolRemoved,
        Setting::SourcePort(_) => SignalKind::ZoneSourcePortRemoved,
        Setting::IcmpBlock(_) => SignalKind::ZoneIcmpBlockRemoved,
        Setting::Masquerade => SignalKind::ZoneMasqueradeRemoved,
        Setting::Forward(_) => SignalKind::ZoneForwardPortRemoved,
        Setting::Rich(_) => SignalKind::ZoneRichRuleRemoved,
    }
}

/// The signal that an entry was bound to a zone.
pub fn bound_kind(entry: &Entry) -> SignalKind
    ensures { result ≡ bound_kind entry.now }
{
    match entry {
        Entry::Interface(_) => SignalKind::ZoneInterfaceAdded,
        Entry::Source(_) => SignalKind::ZoneSourceAdded,
    }
}

/// The signal that an entry was taken from a zone.
pub fn unbound_kind(entry: &Entry) -> SignalKind
    ensures { result ≡ unbound_kind entry.now }
{
    match entry {
        Entry::Interface(_) => SignalKind::ZoneInterfaceRemoved,
        Entry::Source(_) => SignalKind::ZoneSourceRemoved,
    }
}

/// The signal that an entry went to a zone, whichever had it.
pub fn moved_kind(entry: &Entry) -> SignalKind
    ensures { result ≡ moved_kind entry.now }
{
    match entry {
        Entry::Interface(_) => SignalKind::ZoneOfInterfaceChanged,
        Entry::Source(_) => SignalKind::ZoneOfSourceChanged,
    }
}
