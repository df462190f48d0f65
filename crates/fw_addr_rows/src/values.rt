//! The small values: what they print, and their copies.
use fw_addr::*;
use fw_base::{Memory, Text, TryCopy};
use std::alloc::{AllocError, Global};

/// Addresses, nets, protocols, ports and limits, each by its text.
pub fn numbers_text(alloc: Global) -> Result<String, AllocError> {
    let limit = Limit {
        count: 3,
        unit: Unit::Minute,
    };
    let range = PortRange {
        first: 80,
        last: 90,
    };
    let entry = read_iface("eth+").map_err(|_| AllocError)?;
    format!(in alloc;
        "{} {} {} {} {range} {} {entry} {limit} {}/{}",
        Addr::V4(1),
        Net::new(Addr::V6(1), 64),
        Mac(0xa),
        Proto(17),
        PortProto::Sctp,
        limit.count,
        limit.unit.letter()
    )
}

/// A value of each kind that is a name.
pub fn names_text(alloc: Global) -> Result<String, AllocError> {
    format!(in alloc;
        "{} {} {} {} {} {} {}",
        RejectType::Icmp6AdmProhibited,
        Level::Emerg,
        LogKind::Audit,
        CtState::Related,
        PktType::Multicast,
        Family::V6,
        Unit::Day
    )
}

/// Whether copies of a log line, an interface and an address equal these.
pub fn are_copies_equal(alloc: Global) -> Result<bool, Memory> {
    let line = LogLine {
        kind: LogKind::Audit,
        level: Level::Notice,
        prefix: Text::of(alloc, "accept")?,
    };
    let copied = line.copy(alloc)?;
    let is_line_equal = copied.kind == line.kind
        && copied.level == line.level
        && copied.prefix == line.prefix;
    let Ok(entry) = read_iface("eth+") else {
        return Ok(false);
    };
    let is_entry_equal = entry.copy(alloc)? == entry;
    Ok(is_line_equal && is_entry_equal && Addr::V6(1).copy(alloc)? == Addr::V6(1))
}
