//! Policies in the order in which they act.
ghost use Rattle.std.specs.Prelude.{◌≡◌, IfOk};
ghost use Rattle.fw_order.specs.Borrowed.{lent};
ghost use Rattle.fw_order.specs.Policies.{by_priority_and_name, policy_order};

use fw_base::Memory;
use fw_model::Policy;
use std::cmp::Ordering;

fn policy_order(one: &Policy, other: &Policy) -> Ordering
    ensures { result ≡ policy_order one.now other.now }
{
    match one.priority.cmp(&other.priority) {
        Ordering::Equal => one.name.as_str().cmp(&other.name.as_str()),
        decided => decided,
    }
}

/// Policies by their priorities, the lowest first, and of one priority by their names, in byte order
/// (firewalld.policy(5), `priority`).
///
/// Refuses for want of memory alone.
pub fn by_priority_and_name(policies: Vec<&Policy>) -> Result<Vec<&Policy>, Memory>
    ensures { IfOk result (λ ordered. lent ordered.items ≡ by_priority_and_name (lent policies.entry.items)) }
{
    let mut ordered = policies;
    ordered.sort_by(|one, other| policy_order(one, other))?;
    Ok(ordered)
}
