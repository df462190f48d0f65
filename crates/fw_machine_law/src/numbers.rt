//! The numbers of the next zone and of the next policy stay in their range. The functions here are laws: their clauses are all of them.
ghost use Rattle.std.specs.Prelude.{◌≡◌, Ok};
ghost use Rattle.fw_act.specs.Acts.{Answered};
ghost use Rattle.fw_calls.specs.declared.call.Call.{Call};
ghost use Rattle.fw_calls.specs.declared.event.Event.{Event};
ghost use Rattle.fw_machine.specs.Machine.{called, step};
ghost use Rattle.fw_machine_law.specs.Ranges.{AreInRange};
ghost use Rattle.fw_settings.specs.Valid.{AreValid};
ghost use Rattle.fw_settings.specs.declared.settings.Settings.{Settings};

use fw_roots_valid::to_permanent_keeps_numbers;

/// Any call that isn't refused.
pub fn called_keeps_numbers()
    ensures { (settings : Settings) (call : Call) (answered : Answered Settings) → AreValid settings → AreInRange settings
        → called settings call ≡ Ok answered → AreInRange answered.after }
{
    to_permanent_keeps_numbers();
}

/// Any event.
pub fn step_keeps_numbers()
    ensures { (settings : Settings) (event : Event) → AreValid settings → AreInRange settings → AreInRange (step settings event).after }
{
    called_keeps_numbers();
}
