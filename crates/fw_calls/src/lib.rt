//! What goes into the daemon and what comes out of it: the members of firewalld's D-Bus interfaces as one table, calls and other
//! events, replies, signals, how much they weigh in the journal, and the desk at which a session makes its calls.
#![tactic(auto)]

mod applied;
mod argument;
mod arguments;
mod call;
mod call_copy;
mod call_size;
mod desk;
mod dict;
mod dict_size;
mod entry_weight;
mod event;
mod interface;
mod making;
mod member;
mod reply;
mod settings_size;
mod shape;
mod signal;
mod signal_kind;
mod size;
mod table;

pub use applied::Applied;
pub use argument::Argument;
pub use call::{
    BindingWord, Call, ConfigCall, IpsetCall, ObjectCall, PolicyCall, RootCall, SettingVerb,
    SettingWords, ZoneCall,
};
pub use desk::{Desk, Handled};
pub use dict::{Dict, DictField};
pub use entry_weight::weight;
pub use event::{Entry, Event};
pub use interface::Interface;
pub use making::make_call;
pub use member::{
    BindingKind, BindingVerb, ConfigMember, IpsetMember, Member, ObjectMember, PolicyMember,
    RootMember, SettingKind, Verb, ZoneMember,
};
pub use reply::{Active, Refusal, Reply};
pub use shape::{Letters, Row, Signals};
pub use signal::{Arg, Signal};
pub use signal_kind::SignalKind;
pub use table::row_of;
