//! Messages.

use crate::body::Body;
use fw_base::Text;

/// The header fields of a message that are known (D-Bus Specification, "Header Fields"). The signature is that of the
/// body's values.
#[derive(Drop)]
pub struct Fields {
    /// The object to which a call is sent, or from which a signal comes.
    pub path: Option<Text>,
    pub interface: Option<Text>,
    /// The method's or the signal's name.
    pub member: Option<Text>,
    /// The error's name.
    pub error: Option<Text>,
    /// The serial of the call that is answered.
    pub reply_serial: Option<u32>,
    /// Whom the message is for.
    pub destination: Option<Text>,
    pub sender: Option<Text>,
    /// How many file descriptors come with the message.
    pub fds: Option<u32>,
}

/// A message (D-Bus Specification, "Message Format").
#[derive(Drop)]
pub struct Message {
    /// 1 for a call, 2 for a return, 3 for an error, 4 for a signal; any other but 0 is to be ignored.
    pub kind: u8,
    pub flags: u8,
    pub serial: u32,
    pub fields: Fields,
    /// The values of the body, one after the other.
    pub body: Body,
}
