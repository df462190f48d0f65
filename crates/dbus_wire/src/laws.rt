//! Laws of the wire format, each the contract of a call that does nothing.

ghost use Rattle.std.specs.Prelude.{◌≡◌, ◌+◌, ◌++◌, ◌↔◌, [], ℕ, List, length, ◌<◌, All, Ok, Err};
ghost use Rattle.dbus_signature.specs.Signatures.{IsKind};
ghost use Rattle.dbus_signature.specs.declared.kind.Kind.{Kind};
ghost use Rattle.dbus_wire.specs.declared.value.Endian.{Endian};
ghost use Rattle.dbus_wire.specs.declared.value.Value.{Value};
ghost use Rattle.dbus_wire.specs.Faults.{FaultThere};
ghost use Rattle.dbus_wire.specs.Fits.{Fits, Spells, SpeltThere, WrittenAgain};
ghost use Rattle.dbus_wire.specs.Spelling.{spelling};
ghost use Rattle.dbus_wire.specs.Values.{max_open, value_of};

/// What is written behind any bytes reads back as the same value, whatever is written after it.
pub fn written_is_read()
    ensures { (endian : Endian) (kind : Kind) (value : Value) (before after : List ℕ) → Fits endian max_open kind (length before) value
        → value_of endian kind (length before) (before ++ (spelling endian value (length before) ++ after)) ≡ Ok (value, length before + length (spelling endian value (length before))) }
{}

/// No spelling at an offset is a proper prefix of another of the same type and byte order, so that no bytes spell
/// two values there.
pub fn no_spelling_begins_another()
    ensures { (endian : Endian) (kind : Kind) (at : ℕ) (first second more : List ℕ) (v w : Value) → Spells endian kind at first v → Spells endian kind at second w
        → second ≡ first ++ more → (v ≡ w) × (more ≡ []) }
{}

/// What is read is written again as the same bytes: a value has one spelling at an offset, which is not empty.
pub fn read_is_written_again()
    ensures read { (endian : Endian) (kind : Kind) (offset : ℕ) (bytes : List ℕ) (found : Value × ℕ) → IsKind kind → All (λ byte. byte < 256) bytes
        → value_of endian kind offset bytes ≡ Ok found → WrittenAgain endian offset bytes found }
    ensures spelt { (endian : Endian) (kind : Kind) (offset : ℕ) (bytes : List ℕ) (found : Value × ℕ) → SpeltThere endian kind offset bytes found → WrittenAgain endian offset bytes found }
{}

/// Bytes have a place at fault exactly where no value is spelt, and it is that of the first fault.
pub fn a_fault_where_nothing_is_spelt()
    ensures fault { (endian : Endian) (kind : Kind) (offset place : ℕ) (bytes : List ℕ) (found : Value × ℕ)
        → value_of endian kind offset bytes ≡ Err place → SpeltThere endian kind offset bytes found → ⊥ }
    ensures spelt { (endian : Endian) (kind : Kind) (offset : ℕ) (bytes : List ℕ) (found : Value × ℕ) → IsKind kind → All (λ byte. byte < 256) bytes
        → value_of endian kind offset bytes ≡ Ok found → SpeltThere endian kind offset bytes found }
    ensures place { (endian : Endian) (kind : Kind) (offset place : ℕ) (bytes : List ℕ) → IsKind kind → All (λ byte. byte < 256) bytes
        → (value_of endian kind offset bytes ≡ Err place) ↔ FaultThere endian kind offset bytes place }
{}
