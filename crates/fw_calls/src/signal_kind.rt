//! The kinds of signals.
ghost use Rattle.std.specs.Prelude.{◌≡◌};
ghost use Rattle.fw_calls.specs.Signals.{signal_interface, signal_name};

use super::Interface;

/// The kinds of signals, with what each carries (firewalld.dbus(5), "Signals").
#[derive(Clone, Copy, Debug, PartialEq, Eq)]
pub enum SignalKind {
    /// `ServiceAdded`: zone, service, timeout.
    ZoneServiceAdded,
    /// `ServiceRemoved`: zone, service.
    ZoneServiceRemoved,
    /// `PortAdded`: zone, port, protocol, timeout.
    ZonePortAdded,
    /// `PortRemoved`: zone, port, protocol.
    ZonePortRemoved,
    /// `SourcePortAdded`: zone, port, protocol, timeout.
    ZoneSourcePortAdded,
    /// `SourcePortRemoved`: zone, port, protocol.
    ZoneSourcePortRemoved,
    /// `ProtocolAdded`: zone, protocol, timeout.
    ZoneProtocolAdded,
    /// `ProtocolRemoved`: zone, protocol.
    ZoneProtocolRemoved,
    /// `IcmpBlockAdded`: zone, ICMP type, timeout.
    ZoneIcmpBlockAdded,
    /// `IcmpBlockRemoved`: zone, ICMP type.
    ZoneIcmpBlockRemoved,
    /// `MasqueradeAdded`: zone, timeout.
    ZoneMasqueradeAdded,
    /// `MasqueradeRemoved`: zone.
    ZoneMasqueradeRemoved,
    /// `ForwardPortAdded`: zone, port, protocol, port that they go to, address that they go to, timeout.
    ZoneForwardPortAdded,
    /// `ForwardPortRemoved`: zone, port, protocol, port that they go to, address that they go to.
    ZoneForwardPortRemoved,
    /// `RichRuleAdded`: zone, rule, timeout.
    ZoneRichRuleAdded,
    /// `RichRuleRemoved`: zone, rule.
    ZoneRichRuleRemoved,
    /// `IcmpBlockInversionAdded`: zone.
    ZoneIcmpBlockInversionAdded,
    /// `IcmpBlockInversionRemoved`: zone.
    ZoneIcmpBlockInversionRemoved,
    /// `InterfaceAdded`: zone, interface.
    ZoneInterfaceAdded,
    /// `InterfaceRemoved`: zone, interface.
    ZoneInterfaceRemoved,
    /// `ZoneOfInterfaceChanged`: zone, interface.
    ZoneOfInterfaceChanged,
    /// `SourceAdded`: zone, source.
    ZoneSourceAdded,
    /// `SourceRemoved`: zone, source.
    ZoneSourceRemoved,
    /// `ZoneOfSourceChanged`: zone, source.
    ZoneOfSourceChanged,
    /// `ZoneUpdated`: zone, settings.
    ZoneUpdated,
    /// `PolicyUpdated`: policy, settings.
    PolicyUpdated,
    /// `EntryAdded`: ipset, entry.
    IpsetEntryAdded,
    /// `EntryRemoved`: ipset, entry.
    IpsetEntryRemoved,
    /// `DefaultZoneChanged`: zone.
    RootDefaultZoneChanged,
    /// `LogDeniedChanged`: value.
    RootLogDeniedChanged,
    /// `PanicModeEnabled`: nothing.
    RootPanicModeEnabled,
    /// `PanicModeDisabled`: nothing.
    RootPanicModeDisabled,
    /// `Reloaded`: nothing.
    RootReloaded,
}

impl SignalKind {
    /// Its own name.
    pub fn name(self) -> &'static str
        ensures { result.now ≡ signal_name self }
    {
        match self {
            SignalKind::ZoneServiceAdded => "ServiceAdded",
            SignalKind::ZoneServiceRemoved => "ServiceRemoved",
            SignalKind::ZonePortAdded => "PortAdded",
            SignalKind::ZonePortRemoved => "PortRemoved",
            SignalKind::ZoneSourcePortAdded => "SourcePortAdded",
            SignalKind::ZoneSourcePortRemoved => "SourcePortRemoved",
            SignalKind::ZoneProtocolAdded => "ProtocolAdded",
            SignalKind::ZoneProtocolRemoved => "ProtocolRemoved",
            SignalKind::ZoneIcmpBlockAdded => "IcmpBlockAdded",
            SignalKind::ZoneIcmpBlockRemoved => "IcmpBlockRemoved",
            SignalKind::ZoneMasqueradeAdded => "MasqueradeAdded",
            SignalKind::ZoneMasqueradeRemoved => "MasqueradeRemoved",
            SignalKind::ZoneForwardPortAdded => "ForwardPortAdded",
            SignalKind::ZoneForwardPortRemoved => "ForwardPortRemoved",
            SignalKind::ZoneRichRuleAdded => "RichRuleAdded",
            SignalKind::ZoneRichRuleRemoved => "RichRuleRemoved",
            SignalKind::ZoneIcmpBlockInversionAdded => "IcmpBlockInversionAdded",
            SignalKind::ZoneIcmpBlockInversionRemoved => "IcmpBlockInversionRemoved",
            SignalKind::ZoneInterfaceAdded => "InterfaceAdded",
            SignalKind::ZoneInterfaceRemoved => "InterfaceRemoved",
            SignalKind::ZoneOfInterfaceChanged => "ZoneOfInterfaceChanged",
            SignalKind::ZoneSourceAdded => "SourceAdded",
            SignalKind::ZoneSourceRemoved => "SourceRemoved",
            SignalKind::ZoneOfSourceChanged => "ZoneOfSourceChanged",
            SignalKind::ZoneUpdated => "ZoneUpdated",
            SignalKind::PolicyUpdated => "PolicyUpdated",
            SignalKind::IpsetEntryAdded => "EntryAdded",
            SignalKind::IpsetEntryRemoved => "EntryRemoved",
            SignalKind::RootDefaultZoneChanged => "DefaultZoneChanged",
            SignalKind::RootLogDeniedChanged => "LogDeniedChanged",
            SignalKind::RootPanicModeEnabled => "PanicModeEnabled",
            SignalKind::RootPanicModeDisabled => "PanicModeDisabled",
            SignalKind::RootReloaded => "Reloaded",
        }
    }

    /// The interface that it's a signal of.
    pub fn interface(self) -> Interface
        ensures { result ≡ signal_interface self }
    {
        match self {
            SignalKind::PolicyUpdated => Interface::Policy,
            SignalKind::IpsetEntryAdded | SignalKind::IpsetEntryRemoved => Interface::Ipset,
            SignalKind::RootDefaultZoneChanged
            | SignalKind::RootLogDeniedChanged
            | SignalKind::RootPanicModeEnabled
            | SignalKind::RootPanicModeDisabled
            | SignalKind::RootReloaded => Interface::Root,
            _ => Interface::Zone,
        }
    }
}
