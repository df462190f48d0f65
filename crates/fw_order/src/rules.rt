//! Rich rules in the order in which they act.
ghost use Rattle.std.specs.Prelude.{◌≡◌, IfOk};
ghost use Rattle.fw_order.specs.Borrowed.{lent};
ghost use Rattle.fw_order.specs.Order.{by_priority};

use fw_base::Memory;
use fw_model::Rich;

/// Rules by their priorities, the lowest first, and of one priority as they are listed
/// (firewalld.richlanguage(5), `priority`).
///
/// Refuses for want of memory alone.
pub fn by_priority(rules: Vec<&Rich>) -> Result<Vec<&Rich>, Memory>
    ensures { IfOk result (λ ordered. lent ordered.items ≡ by_priority (lent rules.entry.items)) }
{
    let mut ordered = rules;
    ordered.sort_by_key(|rule| rule.priority)?;
    Ok(ordered)
}
