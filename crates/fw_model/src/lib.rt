//! The firewall's records: the settings that an administrator makes, the packets that are asked about, and
//! what becomes of them.
#![tactic(auto)]

mod binding;
mod code;
mod config;
mod forward;
mod ipset;
mod notes;
mod outcome;
mod packet;
mod policy;
mod port;
mod rich;
mod rules;
mod runtime;
mod service;
mod setting;
mod zone;

pub use binding::Binding;
pub use code::Code;
pub use config::{Config, LogDenied};
pub use forward::Forward;
pub use fw_addr::{
    CtState, Dnat, Family, Level, Limit, LogKind, LogLine, PktType, RejectType, Unit,
};
pub use ipset::{IpSet, Item, SetKind};
pub use notes::Notes;
pub use outcome::{Outcome, Verdict};
pub use packet::{Origin, Packet, Via};
pub use policy::{Policy, PolicyTarget};
pub use port::Port;
pub use rich::{Act, Action, Element, Rich, RichLog, Side};
pub use rules::Rules;
pub use runtime::Runtime;
pub use service::Service;
pub use setting::{Setting, Timed};
pub use zone::{Zone, ZoneTarget};
