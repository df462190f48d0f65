//! Proposals.
ghost use Rattle.std.specs.Prelude.{◌≡◌, ◌↔◌, Err, IsNone};
ghost use Rattle.std.specs.Option.{unwrap_or};
ghost use Rattle.fw_proposals.specs.Proposals.{Proposes, or_refused};

use crate::settings::same_settings;
use fw_act::{Answer, replied};
use fw_calls::{Refusal, Reply};
use fw_same::{same_config, same_runtime};
use fw_settings::{Proposal, Settings};
use std::alloc::Global;

/// What is to be done of an answer, by the settings before and afterwards: nothing where these are the same, a save where the permanent
/// settings differ, and a commit where those in force do. It takes no memory.
pub fn propose(settings: &Settings, answer: Answer, after: Settings) -> Proposal
    ensures { Proposes settings.entry.now (record { signals = answer.signals; reply = answer.reply; after = after }) result }
{
    let Answer { signals, reply } = answer;
    let needs_save = !same_config(&settings.permanent, &after.permanent);
    let needs_commit = !same_runtime(&settings.runtime, &after.runtime);
    let next = changed(settings, after);
    Proposal {
        reply,
        signals,
        next,
        needs_save,
        needs_commit,
    }
}

/// The settings afterwards, where they aren't those before.
fn changed(settings: &Settings, after: Settings) -> Option<Settings>
    ensures change { IsNone result ↔ (after ≡ settings.entry.now) }
    ensures next { unwrap_or result settings.entry.now ≡ after }
{
    if same_settings(settings, &after) {
        None
    } else {
        Some(after)
    }
}

/// What is to be done of an answer that leaves the settings as they are: nothing. It takes no memory.
pub fn propose_unchanged(settings: &Settings, answer: Answer) -> Proposal
    ensures { Proposes settings.entry.now (record { signals = answer.signals; reply = answer.reply; after = settings.entry.now }) result }
{
    let Answer { signals, reply } = answer;
    Proposal {
        reply,
        signals,
        next: None,
        needs_save: false,
        needs_commit: false,
    }
}

/// A refusal is answered, and nothing is to be done. It takes no memory.
pub fn propose_refusal(alloc: Global, settings: &Settings, refusal: Refusal) -> Proposal
    ensures { Proposes settings.entry.now (or_refused settings.entry.now (Err refusal)) result }
{
    propose_unchanged(settings, replied(alloc, Reply::Refused(refusal)))
}
