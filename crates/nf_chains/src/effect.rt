//! What statements do to packets without leading them on.
ghost use Rattle.std.specs.Prelude.{◌≡◌};
ghost use Rattle.nf_chains.specs.Courses.{marked_so, masqueraded_so, translated_so};
ghost use Rattle.nf_chains.specs.Marks.{can_translate, is_of_family, marked};
ghost use Rattle.nf_chains.specs.Rejects.{can_reject};
ghost use Rattle.nf_chains.specs.Runs.{rejected};

use crate::course::Course;
use crate::flow::{Flow, Next};
use fw_addr::{Addr, Dnat, Family, RejectType, TCP};
use fw_model::{Packet, Verdict};
use nf_eval::Rewrite;

/// Whether a reject with this type can answer the packet.
fn can_reject(kind: RejectType, packet: &Packet) -> bool
    ensures { result ≡ can_reject kind packet.now }
{
    match kind {
        RejectType::TcpReset => packet.proto.0 == TCP,
        _ => true,
    }
}

/// What a reject does: nothing, where it can't answer the packet.
pub fn reject(kind: RejectType, packet: &Packet) -> Next
    ensures { result ≡ rejected kind (can_reject kind packet.now) }
{
    if can_reject(kind, packet) {
        Next::Over(Flow::Ended(Verdict::Reject(kind)))
    } else {
        Next::Statement
    }
}

/// The bits of the mask are cleared in the mark, and the value's bits turned.
fn marked(value: u32, mask: u32, old: u32) -> u32
    ensures { result ≡ marked value mask old }
{
    (old & !mask) ^ value
}

/// What setting a mark does.
pub fn mark(course: &mut Course, value: u32, mask: u32)
    ensures { course.new ≡ marked_so value mask course.old }
{
    course.parts.mark = marked(value, mask, course.parts.mark);
}

/// Whether an address, where there is one, is of a family.
fn is_of_family(address: Option<Addr>, family: Family) -> bool
    ensures { result ≡ is_of_family address family }
{
    match address {
        Some(address) => address.family() == family,
        None => true,
    }
}

/// Whether the packet's destination can become this one: an address of the other family translates nothing.
pub fn can_translate(dnat: &Dnat, packet: &Packet) -> bool
    ensures { result ≡ can_translate dnat.now packet.now }
{
    is_of_family(dnat.addr, packet.src.family())
}

/// The destination's address and port become those that are given.
pub fn translate(course: &mut Course, dnat: &Dnat)
    ensures { course.new ≡ translated_so dnat.now course.old }
{
    let parts = course.parts;
    course.parts = Rewrite {
        mark: parts.mark,
        dst: dnat.addr.unwrap_or(parts.dst),
        dport: dnat.port.unwrap_or(parts.dport),
        dnat: true,
    };
    course.translation = Some(*dnat);
}

/// The packet is to leave with the host's own address.
pub fn masquerade(course: &mut Course)
    ensures { course.new ≡ masqueraded_so course.old }
{
    course.masquerade = true;
}
