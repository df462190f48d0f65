//! Which denied packets are logged, as calls spell it.
ghost use Rattle.std.specs.Prelude.{◌≡◌};
ghost use Rattle.fw_act.specs.Acts.{Reads, found_or};
ghost use Rattle.fw_model.specs.declared.code.Code.TheVariants.{InvalidValue};
ghost use Rattle.fw_root_members.specs.LogDenied.{log_denied, log_denied_text, same_log_denied};

use fw_act::{Stop, refuse};
use fw_model::{Code, LogDenied};
use std::alloc::Global;

/// The word for which denied packets are logged.
pub fn log_denied_text(denied: LogDenied) -> &'static str
    ensures { result.now ≡ log_denied_text denied }
{
    match denied {
        LogDenied::Off => "off",
        LogDenied::All => "all",
        LogDenied::Unicast => "unicast",
        LogDenied::Broadcast => "broadcast",
        LogDenied::Multicast => "multicast",
    }
}

fn log_denied(text: &str) -> Option<LogDenied>
    ensures { result ≡ log_denied text.now }
{
    match text {
        "off" => Some(LogDenied::Off),
        "all" => Some(LogDenied::All),
        "unicast" => Some(LogDenied::Unicast),
        "broadcast" => Some(LogDenied::Broadcast),
        "multicast" => Some(LogDenied::Multicast),
        _ => None,
    }
}

/// Which denied packets a word says; another word is refused.
pub fn read_log_denied(alloc: Global, text: &str) -> Result<LogDenied, Stop>
    ensures { Reads result (found_or InvalidValue text.now (log_denied text.now)) }
{
    match log_denied(text) {
        Some(denied) => Ok(denied),
        None => Err(Stop::Refused(refuse(alloc, Code::InvalidValue, text)?)),
    }
}

/// Whether two are one.
pub fn same_log_denied(one: LogDenied, other: LogDenied) -> bool
    ensures { result ≡ same_log_denied one other }
{
    log_denied_text(one) == log_denied_text(other)
}
