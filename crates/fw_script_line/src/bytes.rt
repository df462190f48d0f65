//! Bytes in hexadecimal digits.
ghost use Rattle.fw_words.specs.Reading.{Says};
ghost use Rattle.fw_script_line.specs.Bytes.{bytes_of};

use fw_base::Seq;
use fw_words::LineError;
use hex::FromHexError;
use std::alloc::Global;

/// The bytes that hexadecimal digits of either case spell, two digits each.
///
/// BadLine: there is another character, or the number of digits is odd.
#[tactic(auto, unfolding(crate::specs::Bytes::bytes_of))]
pub fn read_bytes(alloc: Global, digits: &str) -> Result<Seq<u8>, LineError>
    ensures { Says result (bytes_of digits.now) }
{
    match hex::decode(alloc, digits) {
        Ok(bytes) => Ok(Seq::from_vec(bytes)),
        Err(FromHexError::OutOfMemory) => Err(LineError::Memory),
        Err(_) => Err(LineError::BadLine),
    }
}
