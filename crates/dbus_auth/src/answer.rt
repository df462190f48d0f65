//! What a line is answered, and where a connection is in the protocol.

/// What the server answers to a line.
#[derive(Clone, Copy, Debug, PartialEq, Eq)]
pub enum AuthAnswer {
    /// `OK` and the server's GUID: the client is accepted.
    Ok,
    /// `DATA`: the client may give its identity.
    Data,
    /// `REJECTED EXTERNAL`: the client may try again.
    Rejected,
    /// `ERROR`: the line means nothing here.
    Error,
    /// Nothing; messages follow.
    Begin,
    /// The connection ends. With the tenth rejection `REJECTED EXTERNAL` is written before.
    Ended(AuthEnd),
}

/// Why a connection ends before its first message.
#[derive(Clone, Copy, Debug, PartialEq, Eq)]
pub enum AuthEnd {
    /// Its first byte wasn't NUL. Whoever reads the bytes finds this.
    NoNul,
    /// Ten lines were rejected.
    Rejections,
    /// A line had too many bytes without a CRLF. Whoever reads the bytes finds this.
    LineTooLong,
    /// `BEGIN` came before the client was accepted.
    EarlyBegin,
}

/// Where a connection is in the protocol.
#[derive(Clone, Copy, Debug, PartialEq, Eq)]
pub enum Stage {
    /// No mechanism was asked for, or the last try was rejected.
    Start,
    /// The client was asked for its identity.
    Data,
    /// The client was accepted.
    Accepted,
    /// `BEGIN` came, and messages follow.
    Begun,
    /// The connection ended.
    Ended(AuthEnd),
}
