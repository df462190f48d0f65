//! Which limits a packet is within.
ghost use Rattle.std.specs.Prelude.{◌≡◌};
ghost use Rattle.fw_limit.specs.Within.{is_same_limit, is_within};

use fw_addr::Limit;

fn is_same_limit(one: &Limit, other: &Limit) -> bool
    ensures { result ≡ is_same_limit one.now other.now }
{
    one == other
}

/// Whether a limit is one of those that a packet passes: one of the same count and unit.
pub fn is_within(limit: &Limit, passed: &[Limit]) -> bool
    ensures { result ≡ is_within limit.now passed.now }
{
    passed.iter().any(|one| is_same_limit(limit, one))
}
