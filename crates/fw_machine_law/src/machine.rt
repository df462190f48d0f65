//! Events keep the settings valid. The functions here are laws: their clauses are all of them.
ghost use Rattle.std.specs.Prelude.{◌≤◌, List, length};
ghost use Rattle.fw_calls.specs.declared.applied.Applied.{Applied};
ghost use Rattle.fw_calls.specs.declared.event.Entry.{Entry};
ghost use Rattle.fw_calls.specs.declared.event.Event.{Event};
ghost use Rattle.fw_machine.specs.Machine.{step};
ghost use Rattle.fw_machine_law.specs.Histories.{Leaves};
ghost use Rattle.fw_machine_law.specs.Ranges.{AreInRange, IsInRange};
ghost use Rattle.fw_model.specs.declared.config.Config.{Config};
ghost use Rattle.fw_proposals.specs.Proposals.{Proposes};
ghost use Rattle.fw_settings.specs.Settling.{settled};
ghost use Rattle.fw_settings.specs.Starting.{started};
ghost use Rattle.fw_settings.specs.Valid.{AreValid, last_number};
ghost use Rattle.fw_settings.specs.declared.proposal.Proposal.{Proposal};
ghost use Rattle.fw_settings.specs.declared.settings.Settings.{Settings};
ghost use Rattle.fw_valid.specs.Each.{Each};
ghost use Rattle.fw_valid.specs.Valid.{IsValid};

use super::calls::called_keeps_valid;
use super::numbers::step_keeps_numbers;
use fw_settings::first_settings_are_valid;
use fw_times_valid::{link_keeps_valid, tick_keeps_valid};

/// What an event is to make of valid settings is valid, be it a call, refused or not, the time, a link, or the beginning or the end of a
/// session.
pub fn step_keeps_valid()
    ensures { (settings : Settings) (event : Event) → AreValid settings → AreInRange settings → IsInRange event → AreValid (step settings event).after }
{
    called_keeps_valid();
    tick_keeps_valid();
    link_keeps_valid();
}

/// What an event leaves of valid settings is valid, whether its save failed or not, and whether its commit failed or not.
pub fn settled_keeps_valid()
    ensures { (settings : Settings) (event : Event) (proposal : Proposal) (save commit : Applied) → AreValid settings → AreInRange settings → IsInRange event
        → Proposes settings (step settings event) proposal
        → AreValid (settled settings proposal save commit).settings × AreInRange (settled settings proposal save commit).settings }
{
    step_keeps_valid();
    step_keeps_numbers();
}

/// Whatever a history of events leaves of valid settings is valid.
pub fn history_keeps_valid()
    ensures { (settings last : Settings) (entries : List Entry) → AreValid settings → AreInRange settings → Each (λ (entry : Entry). IsInRange entry.event) entries
        → Leaves settings entries last → AreValid last × AreInRange last }
{
    settled_keeps_valid();
}

/// A daemon that starts from a valid configuration has valid settings, whatever comes.
pub fn started_keeps_valid()
    ensures { (config : Config) (last : Settings) (entries : List Entry) → IsValid config → length config.zones ≤ last_number → length config.policies ≤ last_number
        → Each (λ (entry : Entry). IsInRange entry.event) entries → Leaves (started config) entries last → AreValid last }
{
    first_settings_are_valid();
    history_keeps_valid();
}
