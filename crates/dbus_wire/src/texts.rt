//! Which bytes are texts and object paths.

ghost use Rattle.std.specs.Prelude.{◌≡◌, IfSome, IfNone, false, true};
ghost use Rattle.dbus_wire.specs.Texts.{is_text, is_path_letter, is_path, path_goes_on};

/// A letter of an element of a path.
fn is_path_letter(letter: u8) -> bool
    ensures { result ≡ is_path_letter letter }
{
    matches!(letter, b'A'..=b'Z' | b'a'..=b'z' | b'0'..=b'9' | b'_')
}

/// Whether bytes follow in a path, where a letter may be due.
fn path_goes_on(bytes: &[u8]) -> bool
    ensures { result ≡ path_goes_on true bytes.now }
{
    let mut due = true;
    for byte in bytes {
        if *byte == b'/' {
            if due {
                return false;
            }
            due = true;
        } else {
            if !is_path_letter(*byte) {
                return false;
            }
            due = false;
        }
    }
    !due
}

/// Whether a text is an object path (D-Bus Specification, "Valid Object Paths").
pub fn is_path(bytes: &[u8]) -> bool
    ensures { result ≡ is_path bytes.now }
{
    match bytes {
        [] => false,
        [only] => *only == b'/',
        [first, others @ ..] => *first == b'/' && path_goes_on(others),
    }
}

/// The bytes as a text, where they are UTF-8 without a NUL.
pub fn as_text(bytes: &[u8]) -> Option<&str>
    ensures text { IfSome result (λ text. (text.now ≡ bytes.now) × (is_text bytes.now ≡ true)) }
    ensures none { IfNone result (is_text bytes.now ≡ false) }
{
    let Ok(text) = str::from_utf8(bytes) else {
        return None;
    };
    if bytes.contains(&0) { None } else { Some(text) }
}
