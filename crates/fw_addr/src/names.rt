//! Names of zones, policies, services and ipsets.
ghost use Rattle.std.specs.Prelude.{◌≡◌};
ghost use Rattle.std.specs.List.{list_all};
ghost use Rattle.fw_addr.specs.WellFormed.{is_name, is_name_byte};

/// Whether a text may be the name of a zone, a policy, a service or an ipset: 1 to 64 letters, digits, `-`,
/// `.` and `_`.
pub fn is_well_formed_name(text: &str) -> bool
    ensures { result ≡ is_name text.now }
{
    !text.is_empty() && text.len() <= 64 && are_name_bytes(text.as_bytes())
}

fn are_name_bytes(text: &[u8]) -> bool
    ensures { result ≡ list_all is_name_byte text.now }
{
    text.iter().all(|byte| is_name_byte(*byte))
}

fn is_name_byte(byte: u8) -> bool
    ensures { result ≡ is_name_byte byte }
{
    byte.is_ascii_alphanumeric() || matches!(byte, b'-' | b'.' | b'_')
}
