//! Parts of a ruleset that have a printed form, and lists of them.
ghost use Rattle.std.specs.Prelude.{◌≡◌, ℕ, List, ◌++◌, codes, map, OnOk, string_bytes};
ghost use Rattle.std.specs.List.{flat_map};
ghost use Rattle.nf_rules.specs.Printed.{in_braces};

use fw_base::Memory;

/// A value with a printed form.
pub trait Part {
    /// The printed form.
    ghost text: { Self → List ℕ };

    /// Appends the printed form.
    fn push(&self, out: &mut String) -> Result<(), Memory>
        ensures { OnOk result (string_bytes out.new ≡ string_bytes out.old ++ text self.now) };
}

/// Appends parts one behind the other.
pub fn push_all<T: Part>(out: &mut String, parts: &[T]) -> Result<(), Memory>
    ensures { OnOk result (string_bytes out.new ≡ string_bytes out.old ++ flat_map T.text parts.now) }
{
    for part in parts {
        part.push(out)?;
    }
    Ok(())
}

/// Appends parts, each behind a separator.
pub fn push_others<T: Part>(out: &mut String, separator: &str, parts: &[T]) -> Result<(), Memory>
    ensures { OnOk result (string_bytes out.new
        ≡ string_bytes out.old ++ flat_map (λ part. separator.now ++ T.text part) parts.now) }
{
    for part in parts {
        out.push_str(separator)?;
        part.push(out)?;
    }
    Ok(())
}

/// Appends parts with a separator between them.
pub fn push_separated<T: Part>(
    out: &mut String,
    separator: &str,
    first: &T,
    others: &[T],
) -> Result<(), Memory>
    ensures { OnOk result (string_bytes out.new ≡ string_bytes out.old
        ++ (T.text first.now ++ flat_map (λ part. separator.now ++ T.text part) others.now)) }
{
    first.push(out)?;
    push_others(out, separator, others)
}

/// Appends parts in braces, with commas between them.
pub fn push_braced<T: Part>(out: &mut String, parts: &[T]) -> Result<(), Memory>
    ensures { OnOk result (string_bytes out.new ≡ string_bytes out.old ++ in_braces (map T.text parts.now)) }
{
    match parts.split_first() {
        Some((first, others)) => push_between_braces(out, first, others),
        None => {
            out.push_str("{ }")?;
            Ok(())
        }
    }
}

fn push_between_braces<T: Part>(out: &mut String, first: &T, others: &[T]) -> Result<(), Memory>
    ensures { OnOk result (string_bytes out.new ≡ string_bytes out.old ++ (codes "{ "
        ++ (T.text first.now ++ flat_map (λ part. codes ", " ++ T.text part) others.now) ++ codes " }")) }
{
    out.push_str("{ ")?;
    push_separated(out, ", ", first, others)?;
    out.push_str(" }")?;
    Ok(())
}
