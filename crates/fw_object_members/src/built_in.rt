//! The names of built-in zones.
ghost use Rattle.std.specs.Prelude.{◌≡◌};
ghost use Rattle.std.specs.List.{list_any};
ghost use Rattle.std.specs.Str.{bytes_eq};
ghost use Rattle.fw_object_members.specs.Zones.{is_built_in};

/// Whether a zone of the built-in configuration has a name.
#[tactic(auto, unfolding(crate::specs::Zones::is_built_in))]
pub fn is_built_in(name: &str) -> bool
    ensures { result ≡ is_built_in name.now }
{
    is_one_of(
        &[
            "block", "dmz", "drop", "external", "home", "internal", "public", "trusted", "work",
        ],
        name,
    )
}

fn is_one_of(names: &[&str], name: &str) -> bool
    ensures { result ≡ list_any (λ listed. bytes_eq listed.now name.now) names.now }
{
    names.iter().any(|listed| *listed == name)
}
