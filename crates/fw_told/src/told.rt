//! What a client is told: signals and replies, as values and as lines of a script's output.
ghost use Rattle.std.specs.Prelude.{◌≡◌, ◌++◌, IfOk, OnOk, string_bytes};
ghost use Rattle.std.specs.List.{flat_map};
ghost use Rattle.fw_told.specs.Told.{exception_text, invalid_args_text, reason_text, reply_line, reply_text, signal_line, signal_name, value_text, values_text};

use super::lists::{push_active_zones, push_texts};
use fw_base::{Memory, Seq, Text};
use fw_model::Code;
use fw_quote::push_quoted;
use std::alloc::Global;

/// A value of a signal or a reply.
#[derive(Drop)]
pub enum Value {
    Text(Text),
    Number(u32),
    Bool(bool),
    Texts(Seq<Text>),
    /// A dict of zones by their names, in ascending order.
    ActiveZones(Seq<Active>),
}

/// A zone to which packets belong, with the texts of its interfaces and of its sources.
#[derive(Drop)]
pub struct Active {
    pub name: Text,
    pub interfaces: Seq<Text>,
    pub sources: Seq<Text>,
}

/// The kinds of signals of the interfaces `zone` and `ipset`, with what each carries (firewalld.dbus(5), "Signals").
#[derive(Clone, Copy, Debug, PartialEq, Eq)]
pub enum SignalKind {
    /// `PortAdded`: zone, port, protocol, timeout.
    ZonePortAdded,
    /// `PortRemoved`: zone, port, protocol.
    ZonePortRemoved,
    /// `SourcePortAdded`: zone, port, protocol, timeout.
    ZoneSourcePortAdded,
    /// `SourcePortRemoved`: zone, port, protocol.
    ZoneSourcePortRemoved,
    /// `ProtocolAdded`: zone, protocol, timeout.
    ZoneProtocolAdded,
    /// `ProtocolRemoved`: zone, protocol.
    ZoneProtocolRemoved,
    /// `IcmpBlockAdded`: zone, ICMP type, timeout.
    ZoneIcmpBlockAdded,
    /// `IcmpBlockRemoved`: zone, ICMP type.
    ZoneIcmpBlockRemoved,
    /// `ServiceAdded`: zone, service, timeout.
    ZoneServiceAdded,
    /// `ServiceRemoved`: zone, service.
    ZoneServiceRemoved,
    /// `RichRuleAdded`: zone, rule, timeout.
    ZoneRichRuleAdded,
    /// `RichRuleRemoved`: zone, rule.
    ZoneRichRuleRemoved,
    /// `IcmpBlockInversionAdded`: zone.
    ZoneIcmpBlockInversionAdded,
    /// `IcmpBlockInversionRemoved`: zone.
    ZoneIcmpBlockInversionRemoved,
    /// `InterfaceAdded`: zone, interface.
    ZoneInterfaceAdded,
    /// `InterfaceRemoved`: zone, interface.
    ZoneInterfaceRemoved,
    /// `SourceAdded`: zone, source.
    ZoneSourceAdded,
    /// `SourceRemoved`: zone, source.
    ZoneSourceRemoved,
    /// `ZoneOfInterfaceChanged`: zone, interface.
    ZoneOfInterfaceChanged,
    /// `ZoneOfSourceChanged`: zone, source.
    ZoneOfSourceChanged,
    /// `EntryAdded`: ipset, entry.
    IpsetEntryAdded,
    /// `EntryRemoved`: ipset, entry.
    IpsetEntryRemoved,
}

/// A signal: something changed.
#[derive(Drop)]
pub struct Signal {
    pub kind: SignalKind,
    pub values: Seq<Value>,
}

/// The reply to a call.
#[derive(Drop)]
pub enum Reply {
    Ok(Seq<Value>),
    /// The call is refused for a reason, which names what it refuses.
    Refused { code: Code, subject: Text },
    /// The call's arguments aren't of these types, which are a D-Bus signature (D-Bus Specification, "Type System").
    InvalidArgs { signature: Text },
}

impl SignalKind {
    /// Its interface's name in scripts, a dot and its own name.
    pub fn name(self) -> &'static str
        ensures { result.now ≡ signal_name self }
    {
        match self {
            SignalKind::ZonePortAdded => "zone.PortAdded",
            SignalKind::ZonePortRemoved => "zone.PortRemoved",
            SignalKind::ZoneSourcePortAdded => "zone.SourcePortAdded",
            SignalKind::ZoneSourcePortRemoved => "zone.SourcePortRemoved",
            SignalKind::ZoneProtocolAdded => "zone.ProtocolAdded",
            SignalKind::ZoneProtocolRemoved => "zone.ProtocolRemoved",
            SignalKind::ZoneIcmpBlockAdded => "zone.IcmpBlockAdded",
            SignalKind::ZoneIcmpBlockRemoved => "zone.IcmpBlockRemoved",
            SignalKind::ZoneServiceAdded => "zone.ServiceAdded",
            SignalKind::ZoneServiceRemoved => "zone.ServiceRemoved",
            SignalKind::ZoneRichRuleAdded => "zone.RichRuleAdded",
            SignalKind::ZoneRichRuleRemoved => "zone.RichRuleRemoved",
            SignalKind::ZoneIcmpBlockInversionAdded => "zone.IcmpBlockInversionAdded",
            SignalKind::ZoneIcmpBlockInversionRemoved => "zone.IcmpBlockInversionRemoved",
            SignalKind::ZoneInterfaceAdded => "zone.InterfaceAdded",
            SignalKind::ZoneInterfaceRemoved => "zone.InterfaceRemoved",
            SignalKind::ZoneSourceAdded => "zone.SourceAdded",
            SignalKind::ZoneSourceRemoved => "zone.SourceRemoved",
            SignalKind::ZoneOfInterfaceChanged => "zone.ZoneOfInterfaceChanged",
            SignalKind::ZoneOfSourceChanged => "zone.ZoneOfSourceChanged",
            SignalKind::IpsetEntryAdded => "ipset.EntryAdded",
            SignalKind::IpsetEntryRemoved => "ipset.EntryRemoved",
        }
    }
}

/// Appends the line that tells a client of a signal.
///
/// Refuses for want of memory alone.
#[tactic(auto, unfolding(crate::specs::Told::signal_line))]
pub fn push_signal(out: &mut String, client: u16, signal: &Signal) -> Result<(), Memory>
    ensures { OnOk result (string_bytes out.new ≡ string_bytes out.old ++ signal_line client signal.now) }
{
    let name = signal.kind.name();
    write!(out, "signal {client} {name}")?;
    push_values(out, signal.values.as_slice())?;
    out.push('\n')?;
    Ok(())
}

/// Appends the line of a reply.
///
/// Refuses for want of memory alone.
#[tactic(auto, unfolding(crate::specs::Told::reply_line))]
pub fn push_reply(alloc: Global, out: &mut String, client: u16, reply: &Reply) -> Result<(), Memory>
    ensures { OnOk result (string_bytes out.new ≡ string_bytes out.old ++ reply_line client reply.now) }
{
    write!(out, "reply {client} ")?;
    push_reply_text(alloc, out, reply)?;
    out.push('\n')?;
    Ok(())
}

fn push_reply_text(alloc: Global, out: &mut String, reply: &Reply) -> Result<(), Memory>
    ensures { OnOk result (string_bytes out.new ≡ string_bytes out.old ++ reply_text reply.now) }
{
    match reply {
        Reply::Ok(values) => {
            out.push_str("ok")?;
            push_values(out, values.as_slice())
        }
        Reply::Refused { code, subject } => push_refusal(alloc, out, *code, subject.as_str()),
        Reply::InvalidArgs { signature } => push_invalid_args(out, signature.as_str()),
    }
}

fn push_refusal(alloc: Global, out: &mut String, code: Code, subject: &str) -> Result<(), Memory>
    ensures { OnOk result (string_bytes out.new ≡ string_bytes out.old ++ exception_text (reason_text code subject.now)) }
{
    let reason = reason(alloc, code, subject)?;
    push_exception(out, reason.as_str())
}

fn push_exception(out: &mut String, reason: &str) -> Result<(), Memory>
    ensures { OnOk result (string_bytes out.new ≡ string_bytes out.old ++ exception_text reason.now) }
{
    out.push_str("error org.fedoraproject.FirewallD1.Exception ")?;
    push_quoted(out, reason)?;
    Ok(())
}

fn push_invalid_args(out: &mut String, signature: &str) -> Result<(), Memory>
    ensures { OnOk result (string_bytes out.new ≡ string_bytes out.old ++ invalid_args_text signature.now) }
{
    out.push_str("error org.freedesktop.DBus.Error.InvalidArgs ")?;
    push_quoted(out, signature)?;
    Ok(())
}

/// A refusal's code, and what it refuses.
fn reason(alloc: Global, code: Code, subject: &str) -> Result<Text, Memory>
    ensures { IfOk result (λ text. text ≡ reason_text code subject.now) }
{
    let code = code.name();
    Ok(Text::from_string(format!(in alloc; "{code}: {subject}")?))
}

/// Appends values, each behind a blank.
fn push_values(out: &mut String, values: &[Value]) -> Result<(), Memory>
    ensures { OnOk result (string_bytes out.new ≡ string_bytes out.old ++ values_text values.now) }
{
    for value in values {
        push_value(out, value)?;
    }
    Ok(())
}

fn push_value(out: &mut String, value: &Value) -> Result<(), Memory>
    ensures { OnOk result (string_bytes out.new ≡ string_bytes out.old ++ value_text value.now) }
{
    match value {
        Value::Text(text) => {
            out.push(' ')?;
            push_quoted(out, text.as_str())?;
        }
        Value::Number(number) => write!(out, " {number}")?,
        Value::Bool(flag) => out.push_str(if *flag { " true" } else { " false" })?,
        Value::Texts(texts) => {
            out.push(' ')?;
            push_texts(out, texts.as_slice())?;
        }
        Value::ActiveZones(zones) => {
            out.push(' ')?;
            push_active_zones(out, zones.as_slice())?;
        }
    }
    Ok(())
}
