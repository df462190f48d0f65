//! Parts of a line, and lists of them joined by blanks.
ghost use Rattle.std.specs.Prelude.{◌≡◌, ◌∷◌, ◌++◌, List, ℕ, OnOk, string_bytes};
ghost use Rattle.std.specs.List.{flat_map};
ghost use Rattle.fw_event_told.specs.Joined.{joined, others_text};

use fw_base::Memory;

/// What has a text.
pub trait Part {
    /// The text.
    ghost text: { Self → List ℕ };

    /// Appends the text.
    fn push(&self, out: &mut String) -> Result<(), Memory>
        ensures { OnOk result (string_bytes out.new ≡ string_bytes out.old ++ text self.now) };
}

/// Appends parts, joined by blanks.
#[tactic(auto, unfolding(crate::specs::Joined::joined))]
pub fn push_joined<T: Part>(out: &mut String, parts: &[T]) -> Result<(), Memory>
    ensures { OnOk result (string_bytes out.new ≡ string_bytes out.old ++ joined T.text parts.now) }
{
    match parts.split_first() {
        Some((first, others)) => push_first(out, first, others),
        None => Ok(()),
    }
}

#[tactic(auto, unfolding(crate::specs::Joined::joined))]
fn push_first<T: Part>(out: &mut String, first: &T, others: &[T]) -> Result<(), Memory>
    ensures { OnOk result (string_bytes out.new ≡ string_bytes out.old ++ joined T.text (first.now ∷ others.now)) }
{
    first.push(out)?;
    push_others(out, others)
}

/// Appends parts, each behind a blank.
pub fn push_others<T: Part>(out: &mut String, others: &[T]) -> Result<(), Memory>
    ensures { OnOk result (string_bytes out.new ≡ string_bytes out.old ++ others_text T.text others.now) }
{
    for other in others {
        out.push(' ')?;
        other.push(out)?;
    }
    Ok(())
}
