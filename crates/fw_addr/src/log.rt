//! Log lines that a rule gives.
ghost use Rattle.std.specs.Prelude.{◌≡◌};
ghost use Rattle.fw_addr.specs.Names.{kind_text, level_text};

use fw_base::{Memory, Text, TryCopy};
use std::alloc::Global;
use std::fmt;

/// Why a line is logged: a packet was denied, a rich rule logs, or a rich rule audits.
#[derive(Clone, Copy, Debug, PartialEq, Eq)]
pub enum LogKind {
    Deny,
    Rich,
    Audit,
}

/// How severe a log line is, by the names of syslog(3), the most severe first.
#[derive(Clone, Copy, Debug, PartialEq, Eq)]
pub enum Level {
    Emerg,
    Alert,
    Crit,
    Error,
    Warning,
    Notice,
    Info,
    Debug,
}

impl LogKind {
    /// The kind's name.
    pub fn as_str(self) -> &'static str
        ensures { result.now ≡ kind_text self }
    {
        match self {
            LogKind::Deny => "deny",
            LogKind::Rich => "rich",
            LogKind::Audit => "audit",
        }
    }
}

impl fmt::Display for LogKind {
    ghost use Rattle.std.specs.Prelude.{Some};
    ghost use Rattle.fw_addr.specs.Names.{kind_text};

    ghost output = { λ kind. Some (kind_text kind) };

    fn fmt<W: fmt::Write>(&self, f: &mut fmt::Formatter<W>) -> fmt::Result {
        f.write_str(self.as_str())
    }
}

impl Level {
    /// The level's name.
    pub fn as_str(self) -> &'static str
        ensures { result.now ≡ level_text self }
    {
        match self {
            Level::Emerg => "emerg",
            Level::Alert => "alert",
            Level::Crit => "crit",
            Level::Error => "error",
            Level::Warning => "warning",
            Level::Notice => "notice",
            Level::Info => "info",
            Level::Debug => "debug",
        }
    }
}

impl fmt::Display for Level {
    ghost use Rattle.std.specs.Prelude.{Some};
    ghost use Rattle.fw_addr.specs.Names.{level_text};

    ghost output = { λ level. Some (level_text level) };

    fn fmt<W: fmt::Write>(&self, f: &mut fmt::Formatter<W>) -> fmt::Result {
        f.write_str(self.as_str())
    }
}

/// A line of the log.
#[derive(Clone, Debug, PartialEq, Eq, Drop)]
pub struct LogLine {
    pub kind: LogKind,
    pub level: Level,
    /// What the line begins with.
    pub prefix: Text,
}

impl TryCopy for LogLine {
    fn copy(&self, _alloc: Global) -> Result<LogLine, Memory> {
        Ok(self.clone()?)
    }
}
