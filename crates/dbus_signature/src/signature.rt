//! Signatures, which are texts by which types are told.

ghost use Rattle.std.specs.Prelude.{◌≡◌, ◌≤◌, ◌<◌, length, List, IfOk, IsTrue, ◌↔◌};
ghost use Rattle.dbus_signature.specs.Cursors.{read_at, seen};
ghost use Rattle.dbus_signature.specs.Reading.{Gives};
ghost use Rattle.dbus_signature.specs.Types.{codes};
ghost use Rattle.dbus_signature.specs.Signatures.{IsSignature, kinds_of, signature_of};

use crate::cursor::Cursor;
use crate::error::WireError;
use crate::kind::Kind;
use crate::kinds::{kinds_at, one_kind_at};
use crate::letters::{Letters, copy_letters, lend_letters};
use crate::spelling::push_codes;
use fw_base::{Memory, TryCopy};
use sqlite_items::Items;
use std::alloc::Global;
use std::marker::Model;

/// How many bytes a signature may have.
const MAX_LENGTH: usize = 255;

/// A well-formed signature (D-Bus Specification, "Valid Signatures"): types in a row, at most 255 bytes, arrays
/// nested at most 32 deep and structs at most 32. Contracts see its bytes.
#[derive(Drop)]
pub struct Signature {
    letters: Letters,
}

impl Model for Signature {
    ghost use Rattle.std.specs.Prelude.{List, ℕ};

    ghost Value = { List ℕ };

    ghost use Rattle.dbus_signature.specs.Letters.{letters_of};
    ghost use Rattle.dbus_signature.specs.Signatures.{IsSignature};

    ghost view = { λ signature. letters_of signature.letters };

    ghost invariant = { λ signature. IsSignature (letters_of signature.letters) };
}

impl Signature {
    ghost use Rattle.dbus_signature.specs.Signatures.{IsSignature};

    /// The letters of the types.
    pub fn as_bytes(&self) -> &[u8]
        ensures bytes { result.now ≡ self.now }
        ensures valid { IsSignature self.now }
    {
        lend_letters(&self.letters)
    }
}

impl Signature {
    ghost use Rattle.dbus_signature.specs.Signatures.{IsKind, IsSignature, IsOneType, SpellsType};

    /// The signature of a text that is known to be one.
    pub fn of_text(alloc: Global, text: &[u8]) -> Result<Signature, Memory>
        requires { IsSignature text.now }
        ensures { IfOk result (λ signature. signature ≡ text.now) }
    {
        let letters = copy_letters(alloc, text)?;
        Ok(Signature { letters })
    }

    /// The signature of one type, which keeps the limits.
    pub fn of_kind(alloc: Global, kind: &Kind) -> Result<Signature, Memory>
        requires { IsKind kind.now }
        ensures { IfOk result (λ signature. signature ≡ codes kind.now) }
    {
        let mut bytes = Vec::new(alloc);
        push_codes(&mut bytes, kind)?;
        let letters = copy_letters(alloc, bytes.as_slice())?;
        Ok(Signature { letters })
    }

    /// Whether it is a signature of one complete type.
    pub fn is_one_type(&self, alloc: Global) -> Result<bool, Memory>
        ensures { IfOk result (λ one. IsTrue one ↔ IsOneType self.now) }
    {
        let from = Cursor {
            at: 0,
            rest: self.as_bytes(),
        };
        let (_, after) = match one_kind_at(alloc, from) {
            Ok(found) => found,
            Err(WireError::Memory) => return Err(Memory),
            Err(WireError::Bad(_)) => return Ok(false),
        };
        Ok(after.rest.is_empty())
    }

    /// The type of a signature of one complete type.
    pub fn kind(&self, alloc: Global) -> Result<Kind, Memory>
        requires { IsOneType self.now }
        ensures { IfOk result (SpellsType self.now) }
    {
        let from = Cursor {
            at: 0,
            rest: self.as_bytes(),
        };
        match one_kind_at(alloc, from) {
            Ok((kind, _)) => Ok(kind),
            Err(WireError::Memory) => Err(Memory),
            Err(WireError::Bad(_)) => unreachable!(),
        }
    }
}

impl TryCopy for Signature {
    fn copy(&self, alloc: Global) -> Result<Signature, Memory> {
        let letters = copy_letters(alloc, self.as_bytes())?;
        Ok(Signature { letters })
    }
}

/// The types of a signature.
#[tactic(auto, unfolding(crate::specs::Signatures::kinds_of))]
fn kinds_of(alloc: Global, bytes: &[u8]) -> Result<Items<Kind>, WireError>
    ensures { Gives (λ kinds. kinds) result (kinds_of bytes.now) }
{
    if bytes.len() > MAX_LENGTH {
        let (front, _) = bytes.split_at(MAX_LENGTH);
        kinds_at(alloc, Cursor { at: 0, rest: front })?;
        return Err(WireError::Bad(MAX_LENGTH));
    }
    kinds_at(alloc, Cursor { at: 0, rest: bytes })
}

/// The signature that the bytes are.
///
/// Bad comes exactly where they are none. Its place is the first byte that no signature has there, the number of
/// bytes where a type is not complete, and 255 where more than 255 bytes are there and no earlier one is at fault.
pub fn read_signature(alloc: Global, bytes: &[u8]) -> Result<Signature, WireError>
    ensures exact { Gives (λ signature. signature) result (signature_of bytes.now) }
    ensures valid { IfOk result (λ _. IsSignature bytes.now) }
    ensures only { IsSignature bytes.now → signature_of bytes.now ≡ Ok bytes.now }
{
    kinds_of(alloc, bytes)?;
    let letters = copy_letters(alloc, bytes)?;
    Ok(Signature { letters })
}
