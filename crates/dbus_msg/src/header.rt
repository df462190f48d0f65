//! The fixed part of a message's header.

ghost use Rattle.std.specs.Prelude.{◌≡◌, ◌+◌, ◌≤◌, ◌<◌, ◌^◌, take, drop, length};
ghost use Rattle.std.specs.Int.{w32};
ghost use Rattle.dbus_wire.specs.Fields.{from_bytes};
ghost use Rattle.dbus_msg.specs.Headers.{body_start, endian_of, fields_end, header_of, is_sound, whole_len};

use dbus_wire::Endian;

/// What the first 16 bytes of a message tell (D-Bus Specification, "Message Format").
#[derive(Clone, Copy)]
pub struct Header {
    pub endian: Endian,
    pub kind: u8,
    pub flags: u8,
    pub serial: u32,
    /// How many bytes the body has.
    pub body_len: u32,
    /// How many bytes the header fields have.
    pub fields_len: u32,
}

/// How many bytes an array may have.
const MAX_ARRAY: u32 = 67_108_864;

/// How many bytes a message may have.
const MAX_MESSAGE: u64 = 134_217_728;

impl Header {
    /// Where the header fields end.
    pub fn fields_end(self) -> u64
        ensures { result ≡ fields_end self }
    {
        u64::from(self.fields_len) + 16
    }

    /// Where the body begins: behind the header fields, at a multiple of 8.
    pub fn body_start(self) -> u64
        ensures { result ≡ body_start self }
    {
        let end = self.fields_end();
        end + (8 - end % 8) % 8
    }

    /// How many bytes the whole message has.
    pub fn whole_len(self) -> u64
        ensures { result ≡ whole_len self }
    {
        self.body_start() + u64::from(self.body_len)
    }

    /// Whether the kind and the serial are not 0, the version is 1 and no length is above its limit.
    fn is_sound(self, version: u8) -> bool
        ensures { result ≡ is_sound version self }
    {
        self.kind != 0
            && version == 1
            && self.serial != 0
            && self.fields_len <= MAX_ARRAY
            && self.whole_len() <= MAX_MESSAGE
    }
}

/// The number of four bytes at an offset.
fn number_in(endian: Endian, at: usize, bytes: &[u8]) -> u32
    requires { at + 4 ≤ length bytes.now }
    ensures { result ≡ from_bytes endian w32 (take 4 (drop at bytes.now)) }
{
    let (_, rest) = bytes.split_at(at);
    let Some(number) = rest.first_chunk::<4>() else {
        unreachable!()
    };
    match endian {
        Endian::Little => u32::from_le_bytes(*number),
        Endian::Big => u32::from_be_bytes(*number),
    }
}

/// The order of bytes, by the first byte.
fn endian_of(letter: u8) -> Option<Endian>
    ensures { result ≡ endian_of letter }
{
    match letter {
        b'l' => Some(Endian::Little),
        b'B' => Some(Endian::Big),
        _ => None,
    }
}

/// The header that the first 16 bytes tell, unless they are at fault.
pub fn read_header(bytes: &[u8]) -> Option<Header>
    requires { 16 ≤ length bytes.now }
    ensures { result ≡ header_of bytes.now }
{
    let endian = endian_of(bytes[0])?;
    let header = Header {
        endian,
        kind: bytes[1],
        flags: bytes[2],
        serial: number_in(endian, 8, bytes),
        body_len: number_in(endian, 4, bytes),
        fields_len: number_in(endian, 12, bytes),
    };
    if header.is_sound(bytes[3]) {
        Some(header)
    } else {
        None
    }
}
