//! The authentication of one connection.
ghost use Rattle.std.specs.Prelude.{◌≡◌, ℕ, codes};
ghost use Rattle.dbus_auth.specs.Table.{ended, is_data, is_error, rejected, step, step_accepted, step_data, step_start};

use super::identity::has_identity;
use super::{AuthAnswer, AuthEnd, Stage};
use std::marker::Model;

/// The server's GUID, as it stands behind `OK`: 32 hexadecimal digits, the same for each connection (D-Bus
/// Specification, "Authentication Protocol", its command OK).
pub fn guid() -> &'static str
    ensures { result.now ≡ codes "46495245574c4c440000000000000001" }
{
    "46495245574c4c440000000000000001"
}

/// How many rejections end a connection.
const LAST_REJECTION: u8 = 10;

/// The authentication of one connection. Contracts see its stage and how many lines were rejected.
#[derive(Drop)]
pub struct Auth {
    stage: Stage,
    rejections: u8,
}

impl Model for Auth {
    ghost use Rattle.std.specs.Prelude.{◌<◌};
    ghost use Rattle.dbus_auth.specs.Table.{State};

    ghost Value = { State };

    ghost view = { λ auth. record { stage = auth.stage; rejections = auth.rejections } };

    ghost invariant = { λ auth. auth.rejections < 10 };
}

impl Auth {
    /// A connection whose NUL has come.
    pub fn new() -> Auth
        ensures stage { result.stage ≡ Stage.Start }
        ensures rejections { result.rejections ≡ 0 }
    {
        Auth {
            stage: Stage::Start,
            rejections: 0,
        }
    }

    /// The answer to a line, given without its CRLF.
    ///
    /// The tenth rejection of a connection ends it, and so does `BEGIN` before the client was accepted. After
    /// an end each line gets that end, and after an accepted `BEGIN` each line gets `Error`.
    pub fn line(&mut self, line: &[u8]) -> AuthAnswer
        ensures { step self.old line.now ≡ (result, self.new) }
    {
        match self.stage {
            Stage::Start => self.line_at_start(line),
            Stage::Data => self.line_of_data(line),
            Stage::Accepted => self.line_of_accepted(line),
            Stage::Begun => AuthAnswer::Error,
            Stage::Ended(end) => AuthAnswer::Ended(end),
        }
    }

    fn line_at_start(&mut self, line: &[u8]) -> AuthAnswer
        ensures { step_start self.old line.now ≡ (result, self.new) }
    {
        if has_identity(line, b"AUTH EXTERNAL ") {
            self.enter(Stage::Accepted, AuthAnswer::Ok)
        } else if line == b"AUTH EXTERNAL".as_slice() {
            self.enter(Stage::Data, AuthAnswer::Data)
        } else if line.starts_with(b"AUTH") || is_error_line(line) {
            self.reject()
        } else if line == b"BEGIN".as_slice() {
            self.end(AuthEnd::EarlyBegin)
        } else {
            AuthAnswer::Error
        }
    }

    fn line_of_data(&mut self, line: &[u8]) -> AuthAnswer
        ensures { step_data self.old line.now ≡ (result, self.new) }
    {
        if line == b"DATA".as_slice() || has_identity(line, b"DATA ") {
            self.enter(Stage::Accepted, AuthAnswer::Ok)
        } else if is_data_line(line) || line == b"CANCEL".as_slice() || is_error_line(line) {
            self.reject()
        } else if line == b"BEGIN".as_slice() {
            self.end(AuthEnd::EarlyBegin)
        } else {
            AuthAnswer::Error
        }
    }

    fn line_of_accepted(&mut self, line: &[u8]) -> AuthAnswer
        ensures { step_accepted self.old line.now ≡ (result, self.new) }
    {
        if line == b"BEGIN".as_slice() {
            self.enter(Stage::Begun, AuthAnswer::Begin)
        } else if line == b"CANCEL".as_slice() || is_error_line(line) {
            self.reject()
        } else {
            AuthAnswer::Error
        }
    }

    /// Goes on to a stage with an answer.
    fn enter(&mut self, stage: Stage, answer: AuthAnswer) -> AuthAnswer
        ensures result { result ≡ answer }
        ensures stage { self.new ≡ record self.old { stage = stage } }
    {
        self.stage = stage;
        answer
    }

    /// Ends the connection.
    fn end(&mut self, end: AuthEnd) -> AuthAnswer
        ensures { ended end self.old ≡ (result, self.new) }
    {
        self.enter(Stage::Ended(end), AuthAnswer::Ended(end))
    }

    /// Rejects a line, which ends the connection the tenth time.
    fn reject(&mut self) -> AuthAnswer
        ensures { rejected self.old ≡ (result, self.new) }
    {
        if self.rejections + 1 < LAST_REJECTION {
            self.rejections += 1;
            self.enter(Stage::Start, AuthAnswer::Rejected)
        } else {
            self.end(AuthEnd::Rejections)
        }
    }
}

/// Whether a line is `ERROR`, with or without a text.
fn is_error_line(line: &[u8]) -> bool
    ensures { result ≡ is_error line.now }
{
    line == b"ERROR".as_slice() || line.starts_with(b"ERROR ")
}

/// Whether a line is `DATA`, with or without a text.
fn is_data_line(line: &[u8]) -> bool
    ensures { result ≡ is_data line.now }
{
    line == b"DATA".as_slice() || line.starts_with(b"DATA ")
}
