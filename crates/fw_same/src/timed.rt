//! Settings that end by themselves.
ghost use Rattle.std.specs.Prelude.{◌≡◌, ◌↔◌, IsTrue};

use crate::lists::SameObject;
use fw_model::{Setting, Timed};
use fw_zone::Same;

/// Whether two settings are one.
fn same_setting(one: &Setting, other: &Setting) -> bool
    ensures { IsTrue result ↔ (one.now ≡ other.now) }
{
    match (one, other) {
        (Setting::Service(one), Setting::Service(other)) => one.same(other),
        (Setting::Port(one), Setting::Port(other)) => one.same(other),
        (Setting::Protocol(one), Setting::Protocol(other)) => one.same(other),
        (Setting::SourcePort(one), Setting::SourcePort(other)) => one.same(other),
        (Setting::IcmpBlock(one), Setting::IcmpBlock(other)) => one.same(other),
        (Setting::Masquerade, Setting::Masquerade) => true,
        (Setting::Forward(one), Setting::Forward(other)) => one.same(other),
        (Setting::Rich(one), Setting::Rich(other)) => one.same(other),
        _ => false,
    }
}

impl SameObject for Timed {
    #[tactic(auto, using(crate::proofs::Fields::timed_from_fields))]
    fn is_same(&self, other: &Timed) -> bool {
        self.zone == other.zone
            && same_setting(&self.setting, &other.setting)
            && self.deadline == other.deadline
    }
}
