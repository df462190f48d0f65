//! Names of network interfaces, and entries that stand for all names with a prefix.
ghost use Rattle.std.specs.Prelude.{◌≡◌};
ghost use Rattle.std.specs.List.{list_all};
ghost use Rattle.std.specs.Option.{ok_or, option_copied};
ghost use Rattle.fw_addr.specs.Interfaces.{interface, is_interface, is_interface_byte, is_interface_name, matches, before_plus};

use super::AddrError;
use arrayvec::ArrayString;
use fw_base::{Memory, TryCopy};
use std::alloc::{AllocError, Global};
use std::fmt;
use std::marker::Model;

/// An interface's name, or a prefix and `+`, which stands for every name with that prefix. Contracts see its bytes.
#[derive(Debug, Drop)]
pub struct Iface {
    name: ArrayString<15>,
}

impl Model for Iface {
    ghost use Rattle.std.specs.Prelude.{ℕ, List, IsTrue};
    ghost use Rattle.fw_addr.specs.Interfaces.{is_interface};

    ghost Value = { List ℕ };

    ghost view = { λ iface. iface.name.bytes };

    ghost invariant = { λ iface. IsTrue (is_interface iface.name.bytes) };
}

impl Iface {
    /// The text of the entry, a `+` at its end included.
    pub fn as_str(&self) -> &str
        ensures { result.now ≡ self.now }
    {
        self.name.as_str()
    }

    /// Whether the entry stands for a name: for itself, or where it ends in `+`, for each name that begins with
    /// what is before the `+`.
    pub fn matches(&self, name: &str) -> bool
        ensures { result ≡ matches self.now name.now }
    {
        let entry = self.as_str().as_bytes();
        match before_plus(entry) {
            Some(front) => name.as_bytes().starts_with(front),
            None => name.as_bytes() == entry,
        }
    }
}

impl Clone for Iface {
    ghost is_clone = { λ iface copied. copied ≡ iface };

    fn clone(&self) -> Result<Iface, AllocError> {
        Ok(Iface { name: self.name })
    }
}

impl PartialEq for Iface {
    ghost use Rattle.std.specs.Prelude.{nat_eq};
    ghost use Rattle.std.specs.Cmp.{partial_equiv_from_equiv};
    ghost use Rattle.std.specs.Cmp.Lexicographic.{pointwise, nat_list_eq_equiv};

    ghost eq = { pointwise nat_eq };

    ghost laws = { partial_equiv_from_equiv nat_list_eq_equiv };

    fn eq(&self, other: &Iface) -> bool {
        self.as_str() == other.as_str()
    }
}

impl Eq for Iface {
    ghost use Rattle.std.specs.Cmp.Lexicographic.{nat_list_eq_equiv};

    ghost laws = { nat_list_eq_equiv };
}

impl fmt::Display for Iface {
    ghost use Rattle.std.specs.Prelude.{Some};

    ghost output = { λ iface. Some iface };

    fn fmt<W: fmt::Write>(&self, f: &mut fmt::Formatter<W>) -> fmt::Result {
        f.write_str(self.as_str())
    }
}

impl TryCopy for Iface {
    fn copy(&self, _alloc: Global) -> Result<Iface, Memory> {
        Ok(Iface { name: self.name })
    }
}

/// Reads an interface: at most 15 letters, digits, `-`, `.`, `:`, `@` and `_`, at least one of them, with one
/// `+` allowed at the end.
pub fn read_iface(text: &str) -> Result<Iface, AddrError>
    ensures { result ≡ ok_or (interface text.now) AddrError.InvalidInterface }
{
    if !is_interface(text.as_bytes()) {
        return Err(AddrError::InvalidInterface);
    }
    match ArrayString::from(text) {
        Ok(name) => Ok(Iface { name }),
        Err(_) => Err(AddrError::InvalidInterface),
    }
}

fn is_interface(text: &[u8]) -> bool
    ensures { result ≡ is_interface text.now }
{
    text.len() <= 15 && is_name(before_plus(text).unwrap_or(text))
}

fn before_plus(text: &[u8]) -> Option<&[u8]>
    ensures { option_copied result ≡ before_plus text.now }
{
    text.strip_suffix(b"+")
}

fn is_name(text: &[u8]) -> bool
    ensures { result ≡ is_interface_name text.now }
{
    !text.is_empty() && are_name_bytes(text)
}

fn are_name_bytes(text: &[u8]) -> bool
    ensures { result ≡ list_all is_interface_byte text.now }
{
    text.iter().all(|byte| is_name_byte(*byte))
}

fn is_name_byte(byte: u8) -> bool
    ensures { result ≡ is_interface_byte byte }
{
    byte.is_ascii_alphanumeric() || matches!(byte, b'-' | b'.' | b':' | b'@' | b'_')
}
