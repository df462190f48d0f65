//! The parts of a rule, with their values as they are written.
use super::token::ValueText;
use fw_addr::Family;

/// The parts of a rule. An absent one is None.
#[derive(Drop)]
pub struct RuleParts<'a> {
    pub family: Option<Family>,
    pub priority: Option<ValueText<'a>>,
    pub source: Option<SideParts<'a>>,
    pub dest: Option<SideParts<'a>>,
    pub element: Option<ElementParts<'a>>,
    pub log: Option<LogParts<'a>>,
    pub audit: Option<AuditParts<'a>>,
    pub action: Option<ActionParts<'a>>,
}

/// What follows the word `rule`.
#[derive(Drop)]
pub struct HeadParts<'a> {
    pub family: Option<Family>,
    pub priority: Option<ValueText<'a>>,
}

/// What a source or a destination is named by.
#[derive(Clone, Copy, Debug, PartialEq, Eq)]
pub enum SideKey {
    Address,
    Mac,
    Ipset,
}

/// By what a source or a destination is named, and its name.
#[derive(Drop)]
pub struct SideName<'a> {
    pub key: SideKey,
    pub value: ValueText<'a>,
}

/// A source or a destination.
#[derive(Drop)]
pub struct SideParts<'a> {
    pub not: bool,
    pub name: SideName<'a>,
}

/// A port and its protocol.
#[derive(Drop)]
pub struct PortParts<'a> {
    pub port: ValueText<'a>,
    pub protocol: ValueText<'a>,
}

/// The pairs of a forward port.
#[derive(Drop)]
pub struct ForwardPairs<'a> {
    pub port: Option<ValueText<'a>>,
    pub protocol: Option<ValueText<'a>>,
    pub to_port: Option<ValueText<'a>>,
    pub to_addr: Option<ValueText<'a>>,
}

/// A forward port, and where its word begins.
#[derive(Drop)]
pub struct ForwardParts<'a> {
    pub offset: usize,
    pub from: PortParts<'a>,
    pub to_port: Option<ValueText<'a>>,
    pub to_addr: Option<ValueText<'a>>,
}

/// The words by which elements begin.
#[derive(Clone, Copy, Debug, PartialEq, Eq)]
pub enum ElementWord {
    Service,
    Port,
    Protocol,
    IcmpBlock,
    IcmpType,
    Masquerade,
    SourcePort,
    ForwardPort,
}

/// An element.
#[derive(Drop)]
pub enum ElementParts<'a> {
    Service(ValueText<'a>),
    Port(PortParts<'a>),
    Protocol(ValueText<'a>),
    IcmpBlock(ValueText<'a>),
    IcmpType(ValueText<'a>),
    Masquerade,
    SourcePort(PortParts<'a>),
    Forward(ForwardParts<'a>),
}

/// A log line.
#[derive(Drop)]
pub struct LogParts<'a> {
    pub prefix: Option<ValueText<'a>>,
    pub level: Option<ValueText<'a>>,
    pub limit: Option<ValueText<'a>>,
}

/// An audit line.
#[derive(Drop)]
pub struct AuditParts<'a> {
    pub limit: Option<ValueText<'a>>,
}

/// The words by which actions begin.
#[derive(Clone, Copy, Debug, PartialEq, Eq)]
pub enum ActionWord {
    Accept,
    Reject,
    Drop,
    Mark,
}

/// What is done.
#[derive(Drop)]
pub enum ActParts<'a> {
    Accept,
    Reject(Option<ValueText<'a>>),
    Drop,
    Mark(ValueText<'a>),
}

/// An action.
#[derive(Drop)]
pub struct ActionParts<'a> {
    pub act: ActParts<'a>,
    pub limit: Option<ValueText<'a>>,
}
