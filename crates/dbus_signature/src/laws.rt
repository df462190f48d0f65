//! A law of signatures, the contract of a call that does nothing.

ghost use Rattle.std.specs.Prelude.{◌≡◌, ◌↔◌, ℕ, List, Err};
ghost use Rattle.dbus_signature.specs.FirstFault.{SignatureFault};
ghost use Rattle.dbus_signature.specs.Signatures.{signature_of};

/// The place of the fault of a text that is no signature is the first byte that no signature has there.
pub fn a_signature_fault_is_the_first()
    ensures { (text : List ℕ) (place : ℕ) → (signature_of text ≡ Err place) ↔ SignatureFault text place }
{}
