//! What rules have made of a packet on its way.
ghost use Rattle.std.specs.Prelude.{◌≡◌};
ghost use Rattle.nf_chains.specs.Courses.{started};

use fw_addr::Dnat;
use fw_model::Packet;
use nf_eval::Rewrite;

/// What rules have made of a packet so far.
#[derive(Clone, Copy)]
pub struct Course {
    /// The parts of it that they rewrite, as they are now.
    pub parts: Rewrite,
    /// How its destination was translated.
    pub translation: Option<Dnat>,
    /// Whether it is to leave with the host's own address.
    pub masquerade: bool,
}

impl Course {
    /// That of a packet that has met no rule.
    pub fn of(packet: &Packet) -> Course
        ensures { result ≡ started packet.now }
    {
        Course {
            parts: Rewrite::of(packet),
            translation: None,
            masquerade: false,
        }
    }
}
