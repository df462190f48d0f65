//! Why a call is refused.
ghost use Rattle.std.specs.Prelude.{◌≡◌};
ghost use Rattle.fw_model.specs.Codes.{code_name};

/// The reason of a refusal, by the names of firewalld's errors (firewalld.dbus(5), "Errors").
#[derive(Clone, Copy, Debug, PartialEq, Eq)]
pub enum Code {
    AlreadyEnabled,
    NotEnabled,
    CommandFailed,
    InvalidZone,
    InvalidPolicy,
    InvalidService,
    InvalidPort,
    InvalidProtocol,
    InvalidIcmptype,
    InvalidForward,
    InvalidInterface,
    InvalidAddr,
    InvalidIpset,
    InvalidEntry,
    InvalidName,
    InvalidTarget,
    InvalidPriority,
    InvalidValue,
    InvalidRule,
    MissingFamily,
    NameConflict,
    BuiltinZone,
    ZoneAlreadySet,
    ZoneConflict,
    AlreadySet,
    UnknownInterface,
    UnknownSource,
    IpsetWithTimeout,
}

impl Code {
    /// The code's name, as it begins the text of an error.
    pub fn name(self) -> &'static str
        ensures { result.now ≡ code_name self }
    {
        match self {
            Code::AlreadyEnabled => "ALREADY_ENABLED",
            Code::NotEnabled => "NOT_ENABLED",
            Code::CommandFailed => "COMMAND_FAILED",
            Code::InvalidZone => "INVALID_ZONE",
            Code::InvalidPolicy => "INVALID_POLICY",
            Code::InvalidService => "INVALID_SERVICE",
            Code::InvalidPort => "INVALID_PORT",
            Code::InvalidProtocol => "INVALID_PROTOCOL",
            Code::InvalidIcmptype => "INVALID_ICMPTYPE",
            Code::InvalidForward => "INVALID_FORWARD",
            Code::InvalidInterface => "INVALID_INTERFACE",
            Code::InvalidAddr => "INVALID_ADDR",
            Code::InvalidIpset => "INVALID_IPSET",
            Code::InvalidEntry => "INVALID_ENTRY",
            Code::InvalidName => "INVALID_NAME",
            Code::InvalidTarget => "INVALID_TARGET",
            Code::InvalidPriority => "INVALID_PRIORITY",
            Code::InvalidValue => "INVALID_VALUE",
            Code::InvalidRule => "INVALID_RULE",
            Code::MissingFamily => "MISSING_FAMILY",
            Code::NameConflict => "NAME_CONFLICT",
            Code::BuiltinZone => "BUILTIN_ZONE",
            Code::ZoneAlreadySet => "ZONE_ALREADY_SET",
            Code::ZoneConflict => "ZONE_CONFLICT",
            Code::AlreadySet => "ALREADY_SET",
            Code::UnknownInterface => "UNKNOWN_INTERFACE",
            Code::UnknownSource => "UNKNOWN_SOURCE",
            Code::IpsetWithTimeout => "IPSET_WITH_TIMEOUT",
        }
    }
}
