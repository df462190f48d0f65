//! What the check of the grammar decides.
ghost use Rattle.std.specs.Prelude.{◌≡◌, ℕ, List, is_some, true};
ghost use Rattle.fw_command.specs.Commands.{asked};
ghost use Rattle.fw_command.specs.Options.{are_options, is_complete};
ghost use Rattle.fw_command.specs.declared.verb.Verb.{Verb as Verbs};

/// Options that pass the check of the grammar ask for a command, so that behind it nothing is refused but for want of memory.
pub fn checked_options_ask()
    ensures { (verb : Verbs) (words : List (List ℕ)) → are_options verb words ≡ true → is_complete verb words ≡ true → is_some (asked verb words) ≡ true }
{}
