//! Writes padding, numbers, texts and signatures. Offsets count from an origin in the buffer. What is refused for want of
//! memory leaves the old bytes in front.

ghost use Rattle.std.specs.Prelude.{◌≡◌, ◌<◌, ◌≤◌, ◌+◌, ◌-◌, ◌^◌, ◌++◌, ◌∷◌, length, OnOk, OnErr, List, ℕ};
ghost use Rattle.std.specs.Int.{w16, w32, w64};
ghost use Rattle.dbus_wire.specs.Appending.{Keeps};
ghost use Rattle.dbus_wire.specs.Spelling.{aligned, padding, signature_spelling, text_spelling, to_bytes};

use crate::fields::gap;
use crate::value::Endian;
use fw_base::Memory;

/// Zeros up to the next multiple of an alignment, which is 8 at most.
#[tactic(auto, using(crate::proofs::KeepsLaws::keeping))]
pub fn push_padding(out: &mut Vec<u8>, origin: usize, align: usize) -> Result<(), Memory>
    requires origin { origin ≤ length out.old.items }
    requires some { 0 < align }
    requires short { align ≤ 8 }
    ensures ok { OnOk result (out.new.items ≡ out.old.items ++ padding align (length out.old.items - origin)) }
    ensures err { OnErr result (Keeps out.old.items out.new.items) }
{
    let zeros = [0; 8];
    out.extend_from_slice(&zeros[..gap(align, out.len() - origin)])?;
    Ok(())
}

/// The bytes of a number behind padding to their count.
#[tactic(auto, using(crate::proofs::KeepsLaws::keeping))]
fn push_aligned(out: &mut Vec<u8>, origin: usize, bytes: &[u8]) -> Result<(), Memory>
    requires origin { origin ≤ length out.old.items }
    requires some { 0 < length bytes.now }
    requires short { length bytes.now ≤ 8 }
    ensures ok { OnOk result (out.new.items ≡ out.old.items ++ (padding (length bytes.now) (length out.old.items - origin) ++ bytes.now)) }
    ensures err { OnErr result (Keeps out.old.items out.new.items) }
{
    push_padding(out, origin, bytes.len())?;
    out.extend_from_slice(bytes)?;
    Ok(())
}

/// A number of two bytes behind its padding.
pub fn push_u16(out: &mut Vec<u8>, origin: usize, endian: Endian, number: u16) -> Result<(), Memory>
    requires { origin ≤ length out.old.items }
    ensures ok { OnOk result (out.new.items ≡ out.old.items ++ aligned endian w16 number (length out.old.items - origin)) }
    ensures err { OnErr result (Keeps out.old.items out.new.items) }
{
    let bytes = match endian {
        Endian::Little => number.to_le_bytes(),
        Endian::Big => number.to_be_bytes(),
    };
    push_aligned(out, origin, &bytes)
}

pub fn u32_bytes(endian: Endian, number: u32) -> [u8; 4]
    ensures { result ≡ to_bytes endian w32 number }
{
    match endian {
        Endian::Little => number.to_le_bytes(),
        Endian::Big => number.to_be_bytes(),
    }
}

/// A number of four bytes behind its padding.
pub fn push_u32(out: &mut Vec<u8>, origin: usize, endian: Endian, number: u32) -> Result<(), Memory>
    requires { origin ≤ length out.old.items }
    ensures ok { OnOk result (out.new.items ≡ out.old.items ++ aligned endian w32 number (length out.old.items - origin)) }
    ensures err { OnErr result (Keeps out.old.items out.new.items) }
{
    push_aligned(out, origin, &u32_bytes(endian, number))
}

/// A number of eight bytes behind its padding.
pub fn push_u64(out: &mut Vec<u8>, origin: usize, endian: Endian, number: u64) -> Result<(), Memory>
    requires { origin ≤ length out.old.items }
    ensures ok { OnOk result (out.new.items ≡ out.old.items ++ aligned endian w64 number (length out.old.items - origin)) }
    ensures err { OnErr result (Keeps out.old.items out.new.items) }
{
    let bytes = match endian {
        Endian::Little => number.to_le_bytes(),
        Endian::Big => number.to_be_bytes(),
    };
    push_aligned(out, origin, &bytes)
}

/// A length, a text and a NUL.
#[tactic(auto, using(crate::proofs::KeepsLaws::keeping))]
pub fn push_text(out: &mut Vec<u8>, origin: usize, endian: Endian, text: &str) -> Result<(), Memory>
    requires origin { origin ≤ length out.old.items }
    requires short { length text.now < 2 ^ 32 }
    ensures ok { OnOk result (out.new.items ≡ out.old.items ++ text_spelling endian text.now (length out.old.items - origin)) }
    ensures err { OnErr result (Keeps out.old.items out.new.items) }
{
    push_u32(out, origin, endian, text.len() as u32)?;
    out.extend_from_slice(text.as_bytes())?;
    out.push(0)?;
    Ok(())
}

/// A length, the codes of a signature and a NUL.
#[tactic(auto, using(crate::proofs::KeepsLaws::keeping))]
pub fn push_signature(out: &mut Vec<u8>, codes: &[u8]) -> Result<(), Memory>
    requires { length codes.now < 2 ^ 8 }
    ensures ok { OnOk result (out.new.items ≡ out.old.items ++ signature_spelling codes.now) }
    ensures err { OnErr result (Keeps out.old.items out.new.items) }
{
    out.push(codes.len() as u8)?;
    out.extend_from_slice(codes)?;
    out.push(0)?;
    Ok(())
}

/// Writes a number over the four bytes at a place.
pub fn set_u32(out: &mut Vec<u8>, place: usize, endian: Endian, number: u32)
    requires { place + 4 ≤ length out.old.items }
    ensures len { length out.new.items ≡ length out.old.items }
    ensures bytes { (front back : List ℕ) (a b c d : ℕ) → out.old.items ≡ front ++ (a ∷ b ∷ c ∷ d ∷ back) → place ≡ length front
        → out.new.items ≡ front ++ (to_bytes endian w32 number ++ back) }
{
    let bytes = u32_bytes(endian, number);
    out[place] = bytes[0];
    out[place + 1] = bytes[1];
    out[place + 2] = bytes[2];
    out[place + 3] = bytes[3];
}
