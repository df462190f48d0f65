//! The paths of the objects of permanent zones and policies.
ghost use Rattle.std.specs.Prelude.{◌≡◌, ◌++◌, IfOk};
ghost use Rattle.std.specs.Fmt.{decimal};
ghost use Rattle.fw_config_members.specs.Paths.{policy_path, zone_path};

use fw_base::{Memory, Text};
use std::alloc::Global;

/// The path of the zone's object that has a number.
#[tactic(auto, unfolding(crate::specs::Paths::zone_path))]
pub fn zone_path(alloc: Global, number: u64) -> Result<Text, Memory>
    ensures { IfOk result (λ path. path ≡ zone_path number) }
{
    path_in(alloc, "/org/fedoraproject/FirewallD1/config/zone/", number)
}

/// The path of the policy's object that has a number.
#[tactic(auto, unfolding(crate::specs::Paths::policy_path))]
pub fn policy_path(alloc: Global, number: u64) -> Result<Text, Memory>
    ensures { IfOk result (λ path. path ≡ policy_path number) }
{
    path_in(
        alloc,
        "/org/fedoraproject/FirewallD1/config/policy/",
        number,
    )
}

/// A number in decimal behind what stands before it.
fn path_in(alloc: Global, front: &str, number: u64) -> Result<Text, Memory>
    ensures { IfOk result (λ path. path ≡ front.now ++ decimal number) }
{
    Ok(Text::from_string(format!(in alloc; "{front}{number}")?))
}
