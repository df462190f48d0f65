//! The identity that a client gives with EXTERNAL.
ghost use Rattle.std.specs.Prelude.{◌≡◌};
ghost use Rattle.dbus_auth.specs.Identity.{gives_identity, is_identity, spells_digits};

/// Whether a line begins with this and goes on with an identity alone.
pub fn has_identity(line: &[u8], beginning: &[u8]) -> bool
    ensures { result ≡ gives_identity beginning.now line.now }
{
    line.starts_with(beginning) && is_spelled(&line[beginning.len()..])
}

/// Whether a text spells 1 to 10 decimal digits in hexadecimal.
fn is_spelled(text: &[u8]) -> bool
    ensures { result ≡ is_identity text.now }
{
    2 <= text.len() && text.len() <= 20 && are_digits(text)
}

/// Whether a text spells decimal digits in hexadecimal.
fn are_digits(text: &[u8]) -> bool
    ensures { result ≡ spells_digits text.now }
{
    let mut rest = text;
    while let [three, digit, more @ ..] = rest {
        if *three != b'3' || !digit.is_ascii_digit() {
            return false;
        }
        rest = more;
    }
    rest.is_empty()
}
