//! Rich rules outside the filter, by their places.
ghost use Rattle.std.specs.Prelude.{◌≡◌, IfOk};
ghost use Rattle.std.specs.List.{filter};
ghost use Rattle.fw_order.specs.Borrowed.{lent};
ghost use Rattle.fw_order.specs.Order.{by_priority};
ghost use Rattle.fw_verdict.specs.Outside.{forwards, masquerades, stands_at};

use crate::rich::marks;
use fw_base::Memory;
use fw_model::{Element, Rich};
use fw_order::by_priority;
use std::alloc::Global;

/// The places of rich rules outside the filter (firewalld.richlanguage(5)).
#[derive(Clone, Copy)]
pub enum Place {
    /// Rules that mark.
    Marks,
    /// Rules that forward a port, of a priority of 0 and below: before the forwarded ports that are no rich rules.
    ForwardsBefore,
    /// Rules that forward a port, of a priority above 0: behind them.
    ForwardsBehind,
    /// Rules that masquerade.
    Masquerades,
}

fn forwards(element: &Option<Element>) -> bool
    ensures { result ≡ forwards element.now }
{
    match element {
        Some(Element::Forward(_)) => true,
        _ => false,
    }
}

fn masquerades(element: &Option<Element>) -> bool
    ensures { result ≡ masquerades element.now }
{
    match element {
        Some(Element::Masquerade) => true,
        _ => false,
    }
}

/// Whether a rule stands at a place.
pub fn stands_at(place: Place, rule: &Rich) -> bool
    ensures { result ≡ stands_at place rule.now }
{
    match place {
        Place::Marks => marks(&rule.action),
        Place::ForwardsBefore => forwards(&rule.element) && !(rule.priority > 0),
        Place::ForwardsBehind => forwards(&rule.element) && rule.priority > 0,
        Place::Masquerades => masquerades(&rule.element),
    }
}

/// The rules of a place, as they are listed.
fn rules_of<'a>(alloc: Global, place: Place, rules: &'a [Rich]) -> Result<Vec<&'a Rich>, Memory>
    ensures { IfOk result (λ found. lent found.items ≡ filter (stands_at place) rules.now) }
{
    let mut found = Vec::new(alloc);
    for rule in rules {
        if stands_at(place, rule) {
            found.push(rule)?;
        }
    }
    Ok(found)
}

/// The rules of a place, by priority, and of one priority as they are listed.
///
/// Refuses for want of memory alone.
pub fn rules_at<'a>(alloc: Global, place: Place, rules: &'a [Rich]) -> Result<Vec<&'a Rich>, Memory>
    ensures { IfOk result (λ ordered. lent ordered.items ≡ by_priority (filter (stands_at place) rules.now)) }
{
    by_priority(rules_of(alloc, place, rules)?)
}
