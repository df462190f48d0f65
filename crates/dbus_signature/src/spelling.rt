//! Spells types.

ghost use Rattle.std.specs.Prelude.{◌≡◌, ◌++◌, OnOk};
ghost use Rattle.dbus_signature.specs.Types.{all_codes, code, codes};

use crate::kind::{Basic, Kind};
use fw_base::Memory;

impl Basic {
    /// The letter of the type (D-Bus Specification, "Summary of types").
    pub fn code(self) -> u8
        ensures { result ≡ code self }
    {
        match self {
            Basic::Byte => b'y',
            Basic::Bool => b'b',
            Basic::I16 => b'n',
            Basic::U16 => b'q',
            Basic::I32 => b'i',
            Basic::U32 => b'u',
            Basic::I64 => b'x',
            Basic::U64 => b't',
            Basic::Double => b'd',
            Basic::Str => b's',
            Basic::Path => b'o',
            Basic::Sig => b'g',
            Basic::Fd => b'h',
        }
    }
}

/// Appends the spelling of a type.
#[cycle(spelling)]
#[tactic(auto, using(crate::proofs::KindLaws::spellings))]
pub fn push_codes(out: &mut Vec<u8>, kind: &Kind) -> Result<(), Memory>
    ensures { OnOk result (out.new.items ≡ out.old.items ++ codes kind.now) }
{
    match kind {
        Kind::Basic(basic) => out.push(basic.code())?,
        Kind::Variant => out.push(b'v')?,
        Kind::Array(element) => {
            out.push(b'a')?;
            push_codes(out, element.get())?;
        }
        Kind::Dict(key, value) => {
            out.push(b'a')?;
            out.push(b'{')?;
            out.push(key.code())?;
            push_codes(out, value.get())?;
            out.push(b'}')?;
        }
        Kind::Struct(members) => {
            out.push(b'(')?;
            push_all(out, members.as_slice())?;
            out.push(b')')?;
        }
    }
    Ok(())
}

/// Appends the spellings of types in a row.
#[cycle(spelling)]
fn push_all(out: &mut Vec<u8>, kinds: &[Kind]) -> Result<(), Memory>
    ensures { OnOk result (out.new.items ≡ out.old.items ++ all_codes kinds.now) }
{
    for kind in kinds {
        push_codes(out, kind)?;
    }
    Ok(())
}
