//! Numbers in hexadecimal.
ghost use Rattle.std.specs.Prelude.{◌≡◌, ◌<◌, ◌^◌, ◌≤◌, length, IfSome};
ghost use Rattle.fw_addr.specs.Hexadecimal.{hex_to};

/// The number that at most four hexadecimal digits of either case spell; the empty text spells 0.
pub fn read_hex(text: &[u8]) -> Option<u16>
    requires { length text.now ≤ 4 }
    ensures value { result ≡ hex_to 0 text.now }
    ensures bound { IfSome result (λ number. number < 16 ^ length text.now) }
{
    let mut before: u32 = 0;
    for byte in text {
        let digit = char::from(*byte).to_digit(16)?;
        before = before * 16 + digit;
    }
    Some(before as u16)
}
