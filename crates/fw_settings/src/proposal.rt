//! What an event is to do.
use super::Settings;
use fw_base::Seq;
use fw_calls::{Reply, Signal};

/// What an event is to do, before anything of it is done.
#[derive(Drop)]
pub struct Proposal {
    /// The reply, where nothing fails. That of a tick or an event of a link has the result of the commit in it.
    pub reply: Reply,
    /// What sessions are told, where nothing fails.
    pub signals: Seq<Signal>,
    /// The settings afterwards. None: nothing changes.
    pub next: Option<Settings>,
    /// Whether the permanent settings change.
    pub needs_save: bool,
    /// Whether the settings in force change.
    pub needs_commit: bool,
}
