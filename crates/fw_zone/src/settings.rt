//! Settings that are added and removed one by one.
ghost use Rattle.std.specs.Prelude.{◌≡◌, ◌↔◌, IsErr, IsTrue, OnOk, OnErr, Err};
ghost use Rattle.fw_zone.specs.Settings.{Has, IsWithout, with_setting};

use super::lists::{add_item, contains, remove_item};
use fw_base::Memory;
use fw_model::{Rules, Setting};
use std::error::Error;
use std::fmt;

/// Why a setting isn't added.
#[derive(Clone, Copy, Debug, PartialEq, Eq)]
pub enum AddError {
    /// It is there already.
    AlreadyEnabled,
    /// No memory was found.
    Memory,
}

impl fmt::Display for AddError {
    fn fmt<W: fmt::Write>(&self, f: &mut fmt::Formatter<W>) -> fmt::Result {
        f.write_str(match self {
            AddError::AlreadyEnabled => "already enabled",
            AddError::Memory => "out of memory",
        })
    }
}

impl Error for AddError {}

impl From<Memory> for AddError {
    fn from(_error: Memory) -> AddError {
        AddError::Memory
    }
}

/// A setting isn't there, so that it can't be removed.
#[derive(Clone, Copy, Debug, PartialEq, Eq)]
pub struct NotEnabled;

impl fmt::Display for NotEnabled {
    fn fmt<W: fmt::Write>(&self, f: &mut fmt::Formatter<W>) -> fmt::Result {
        f.write_str("not enabled")
    }
}

impl Error for NotEnabled {}

/// Whether a setting is there.
pub fn has(rules: &Rules, setting: &Setting) -> bool
    ensures { IsTrue result ↔ Has rules.now setting.now }
{
    match setting {
        Setting::Service(name) => contains(rules.services.as_slice(), name),
        Setting::Port(port) => contains(rules.ports.as_slice(), port),
        Setting::Protocol(protocol) => contains(rules.protocols.as_slice(), protocol),
        Setting::SourcePort(port) => contains(rules.source_ports.as_slice(), port),
        Setting::IcmpBlock(name) => contains(rules.icmp_blocks.as_slice(), name),
        Setting::Masquerade => rules.masquerade,
        Setting::Forward(forward) => contains(rules.forwards.as_slice(), forward),
        Setting::Rich(rule) => contains(rules.rich.as_slice(), rule),
    }
}

/// Adds a setting, the last of its list.
///
/// Refuses one that is there already, and for want of memory; all is then as before.
pub fn add(rules: &mut Rules, setting: Setting) -> Result<(), AddError>
    ensures added { OnOk result (rules.new ≡ with_setting rules.old setting) }
    ensures already { (result ≡ Err AddError.AlreadyEnabled) ↔ Has rules.old setting }
    ensures err { OnErr result (rules.new ≡ rules.old) }
{
    match setting {
        Setting::Service(name) => add_item(&mut rules.services, name),
        Setting::Port(port) => add_item(&mut rules.ports, port),
        Setting::Protocol(protocol) => add_item(&mut rules.protocols, protocol),
        Setting::SourcePort(port) => add_item(&mut rules.source_ports, port),
        Setting::IcmpBlock(name) => add_item(&mut rules.icmp_blocks, name),
        Setting::Masquerade => {
            if rules.masquerade {
                return Err(AddError::AlreadyEnabled);
            }
            rules.masquerade = true;
            Ok(())
        }
        Setting::Forward(forward) => add_item(&mut rules.forwards, forward),
        Setting::Rich(rule) => add_item(&mut rules.rich, rule),
    }
}

/// Removes a setting; what is behind it in its list moves up. It takes no memory.
///
/// Refuses one that isn't there; all is then as before.
pub fn remove(rules: &mut Rules, setting: &Setting) -> Result<(), NotEnabled>
    ensures removed { OnOk result (IsWithout rules.old setting.now rules.new) }
    ensures absent { IsErr result ↔ (¬ (Has rules.old setting.now)) }
    ensures err { OnErr result (rules.new ≡ rules.old) }
{
    match setting {
        Setting::Service(name) => remove_item(&mut rules.services, name),
        Setting::Port(port) => remove_item(&mut rules.ports, port),
        Setting::Protocol(protocol) => remove_item(&mut rules.protocols, protocol),
        Setting::SourcePort(port) => remove_item(&mut rules.source_ports, port),
        Setting::IcmpBlock(name) => remove_item(&mut rules.icmp_blocks, name),
        Setting::Masquerade => {
            if !rules.masquerade {
                return Err(NotEnabled);
            }
            rules.masquerade = false;
            Ok(())
        }
        Setting::Forward(forward) => remove_item(&mut rules.forwards, forward),
        Setting::Rich(rule) => remove_item(&mut rules.rich, rule),
    }
}
