//! Tests where it is known by which interface a packet leaves.
ghost use Rattle.std.specs.Prelude.{◌≡◌};
ghost use Rattle.std.specs.List.{list_all};
ghost use Rattle.std.specs.Option.{option_map};
ghost use Rattle.nf_chains.specs.Courses.{now_is};
ghost use Rattle.nf_chains.specs.Scenes.{leaving_of};
ghost use Rattle.nf_chains.specs.Tests.{leaves_by, match_at};

use crate::course::Course;
use crate::scene::Scene;
use fw_addr::Iface;
use nf_eval::match_holds;
use nf_rules::{Match, Test};

/// Whether the entry stands for the interface by which the packet leaves.
fn leaves_by(scene: &Scene<'_>, entry: &Iface) -> bool
    ensures { result ≡ leaves_by entry.now (leaving_of scene.now) }
{
    match scene.leaving {
        Some(name) => entry.matches(name),
        None => false,
    }
}

/// Whether a test holds, or with `not` whether it doesn't.
fn match_at(scene: &Scene<'_>, course: &Course, tested: &Match) -> bool
    ensures { result ≡ match_at (leaving_of scene.now) scene.now.rules.now.sets (now_is scene.now.packet.now course.now) tested.now }
{
    match &tested.test {
        Test::Out(entry) => leaves_by(scene, entry) != tested.not,
        _ => match_holds(
            scene.rules.sets.as_slice(),
            scene.packet,
            &course.parts,
            tested,
        ),
    }
}

/// Whether all matches of a rule hold.
pub fn all_hold(scene: &Scene<'_>, course: &Course, matches: &[Match]) -> bool
    ensures { result ≡ list_all (match_at (leaving_of scene.now) scene.now.rules.now.sets (now_is scene.now.packet.now course.now)) matches.now }
{
    matches.iter().all(|tested| match_at(scene, course, tested))
}
