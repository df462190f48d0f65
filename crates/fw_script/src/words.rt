//! The words of the command line.
ghost use Rattle.std.specs.Prelude.{◌≡◌, map};
ghost use Rattle.std.specs.String.{string_bytes};
ghost use Rattle.fw_script.specs.Words.{is_run};

/// Whether the words are the one word `run`.
pub fn is_run(words: &[String]) -> bool
    ensures { result ≡ is_run (map string_bytes words.now) }
{
    match words {
        [word] => word.as_str() == "run",
        _ => false,
    }
}
