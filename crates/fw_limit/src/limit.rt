//! Reading how often a rule or a part of it may act.
ghost use Rattle.std.specs.Prelude.{◌≡◌, ◌≤◌, IfSome};
ghost use Rattle.fw_text.specs.Names.{named};
ghost use Rattle.fw_limit.specs.Limits.{count, limit, units};

use fw_addr::{Limit, Unit};
use fw_text::read_number;

/// Reads a limit (firewalld.richlanguage(5), `limit value`): a count from 1 to 10000 without leading zeros, `/`, and a unit,
/// which is `second`, `minute`, `hour` or `day`, or its first letter. There is none for another text.
pub fn read_limit(text: &str) -> Option<Limit>
    ensures { result ≡ limit text.now }
{
    let (times, unit) = text.split_once('/')?;
    let count = read_count(times)?;
    let unit = read_unit(unit)?;
    Some(Limit { count, unit })
}

fn read_count(text: &str) -> Option<u16>
    ensures { result ≡ count text.now }
{
    let number = read_number(text.as_bytes(), 10_000)?;
    if number == 0 {
        return None;
    }
    Some(number as u16)
}

fn read_unit(text: &str) -> Option<Unit>
    ensures { result ≡ named units text.now }
{
    match text {
        "s" | "second" => Some(Unit::Second),
        "m" | "minute" => Some(Unit::Minute),
        "h" | "hour" => Some(Unit::Hour),
        "d" | "day" => Some(Unit::Day),
        _ => None,
    }
}
