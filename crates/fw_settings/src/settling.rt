//! What an event leaves, by what became of its save and its commit.
ghost use Rattle.std.specs.Prelude.{◌≡◌, []};
ghost use Rattle.std.specs.Option.{unwrap_or};
ghost use Rattle.fw_settings.specs.Settling.{answered, committed, is_event, kept_alone, next_settings, refused_commit, settled};
ghost use Rattle.fw_settings.specs.Valid.{AreValid};

use super::{Proposal, Settings};
use fw_base::Seq;
use fw_calls::{Applied, Reply, Signal};

/// Does what an event is to do, by what became of its save and its commit, and answers the event's reply and its signals. It takes no
/// memory.
///
/// A save that failed leaves everything as it was. A commit that failed leaves the settings in force and the timers, and the permanent
/// settings with their numbers and the time are the new ones.
pub fn settle(
    settings: &mut Settings,
    proposal: Proposal,
    save: Applied,
    commit: Applied,
) -> (Reply, Seq<Signal>)
    ensures settled { settled settings.old proposal save commit ≡ record { reply = result.0; signals = result.1; settings = settings.new } }
    ensures valid { AreValid settings.old → AreValid (next_settings settings.old proposal) → AreValid settings.new }
{
    match save {
        Applied::Failed => (Reply::SaveFailed, no_signals(proposal)),
        Applied::Skipped | Applied::Done => settle_commit(settings, proposal, commit),
    }
}

/// The same where the save didn't fail.
#[tactic(auto, using(crate::proofs::Kept::kept_alone_is_valid))]
fn settle_commit(
    settings: &mut Settings,
    proposal: Proposal,
    commit: Applied,
) -> (Reply, Seq<Signal>)
    ensures settled { committed settings.old proposal commit ≡ record { reply = result.0; signals = result.1; settings = settings.new } }
    ensures valid { AreValid settings.old → AreValid (next_settings settings.old proposal) → AreValid settings.new }
{
    let Proposal {
        reply,
        signals,
        next,
        ..
    } = proposal;
    match commit {
        Applied::Failed => {
            keep_permanent(settings, next);
            let told = refused_commit(&reply);
            let untold = Proposal {
                reply,
                signals,
                next: None,
                needs_save: false,
                needs_commit: false,
            };
            (told, no_signals(untold))
        }
        Applied::Skipped | Applied::Done => {
            take_all(settings, next);
            (answered(reply, commit), signals)
        }
    }
}

/// No signal of a proposal, without memory for it.
fn no_signals(proposal: Proposal) -> Seq<Signal>
    ensures { result ≡ [] }
{
    none_of(proposal.signals)
}

/// No signal, without memory for it.
fn none_of(signals: Seq<Signal>) -> Seq<Signal>
    ensures { result ≡ [] }
{
    let mut items = signals.into_vec();
    items.clear();
    Seq::from_vec(items)
}

/// The new settings, if there are any.
fn take_all(settings: &mut Settings, next: Option<Settings>)
    ensures { settings.new ≡ unwrap_or next settings.old }
{
    if let Some(next) = next {
        *settings = next;
    }
}

/// Of the new settings those that are kept, and the time.
fn keep_permanent(settings: &mut Settings, next: Option<Settings>)
    ensures { settings.new ≡ kept_alone settings.old (unwrap_or next settings.old) }
{
    let Some(next) = next else {
        return;
    };
    let Settings {
        permanent,
        now,
        zone_ids,
        policy_ids,
        next_zone,
        next_policy,
        ..
    } = next;
    settings.permanent = permanent;
    settings.now = now;
    settings.zone_ids = zone_ids;
    settings.policy_ids = policy_ids;
    settings.next_zone = next_zone;
    settings.next_policy = next_policy;
}

/// The reply where nothing failed.
fn answered(reply: Reply, commit: Applied) -> Reply
    ensures { result ≡ answered reply commit }
{
    if is_event(&reply) {
        Reply::Event(commit)
    } else {
        reply
    }
}

/// The reply where the commit failed.
fn refused_commit(reply: &Reply) -> Reply
    ensures { result ≡ refused_commit reply.now }
{
    if is_event(reply) {
        Reply::Event(Applied::Failed)
    } else {
        Reply::CommitFailed
    }
}

/// Whether a reply has the result of a commit in it.
#[tactic(auto, unfolding(crate::specs::Settling::is_event))]
fn is_event(reply: &Reply) -> bool
    ensures { result ≡ is_event reply.now }
{
    match reply {
        Reply::Event(_) => true,
        Reply::None
        | Reply::Bool(_)
        | Reply::Text(_)
        | Reply::Path(_)
        | Reply::Texts(_)
        | Reply::ActiveZones(_)
        | Reply::ActivePolicies(_)
        | Reply::ZoneSettings(_)
        | Reply::PolicySettings(_)
        | Reply::Opened
        | Reply::Shut
        | Reply::Refused(_)
        | Reply::SaveFailed
        | Reply::CommitFailed => false,
    }
}
