//! What values begin at a multiple of.

ghost use Rattle.std.specs.Prelude.{◌≡◌, ◌<◌, ◌≤◌, ◌∷◌, []};
ghost use Rattle.dbus_signature.specs.Types.{code};
ghost use Rattle.dbus_signature.specs.declared.kind.Kind.TheVariants.{Basic as Plain};
ghost use Rattle.dbus_wire.specs.Alignment.{alignment, codes_alignment, element_alignment, letter_alignment};

use dbus_signature::{Basic, Kind};

/// By the first letter of their type; None where a letter begins no type (D-Bus Specification, "Marshaling (Wire
/// Format)").
fn letter_alignment(letter: u8) -> Option<usize>
    ensures { result ≡ letter_alignment letter }
{
    match letter {
        b'y' | b'g' | b'v' => Some(1),
        b'n' | b'q' => Some(2),
        b'b' | b'i' | b'u' | b's' | b'o' | b'a' | b'h' => Some(4),
        b'x' | b't' | b'd' | b'(' | b'{' => Some(8),
        _ => None,
    }
}

/// That of values of a basic type.
#[tactic(auto, using(dbus_signature::proofs::KindLaws::spellings))]
pub fn basic_alignment(basic: Basic) -> usize
    ensures exact { result ≡ alignment (Plain basic) }
    ensures letter { result ≡ codes_alignment (code basic ∷ []) }
    ensures some { 0 < result }
    ensures short { result ≤ 8 }
{
    letter_alignment(basic.code()).unwrap_or(1)
}

/// That of values of a type.
#[tactic(auto, using(dbus_signature::proofs::KindLaws::spellings))]
pub fn alignment(kind: &Kind) -> usize
    ensures exact { result ≡ alignment kind.now }
    ensures some { 0 < result }
{
    match kind {
        Kind::Basic(basic) => basic_alignment(*basic),
        Kind::Variant => 1,
        Kind::Array(_) | Kind::Dict(_, _) => 4,
        Kind::Struct(_) => 8,
    }
}

/// That of the elements of an array, by its type.
pub fn element_alignment(codes: &[u8]) -> usize
    ensures exact { result ≡ element_alignment codes.now }
    ensures some { 0 < result }
    ensures short { result ≤ 8 }
{
    match codes {
        [_, letter, ..] => letter_alignment(*letter).unwrap_or(1),
        _ => 1,
    }
}
