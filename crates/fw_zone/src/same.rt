//! Whether two items of a list are one.
ghost use Rattle.std.specs.Prelude.{◌≡◌, ◌↔◌, IsTrue};

use fw_addr::{Iface, Proto};
use fw_base::Text;
use fw_model::{Action, Binding, Element, Forward, Item, Limit, Port, Rich, RichLog, Side};

/// Items that are compared as values.
pub trait Same {
    /// Whether two items are one.
    fn same(&self, other: &Self) -> bool
        ensures { IsTrue result ↔ (self.now ≡ other.now) };
}

impl Same for Text {
    fn same(&self, other: &Text) -> bool {
        self == other
    }
}

impl Same for Port {
    fn same(&self, other: &Port) -> bool {
        self == other
    }
}

impl Same for Proto {
    fn same(&self, other: &Proto) -> bool {
        self == other
    }
}

impl Same for Forward {
    fn same(&self, other: &Forward) -> bool {
        self == other
    }
}

impl Same for Rich {
    #[tactic(auto, using(crate::proofs::Fields::rich_from_fields))]
    fn same(&self, other: &Rich) -> bool {
        self.priority == other.priority
            && self.family == other.family
            && are_same(&self.source, &other.source)
            && are_same(&self.dest, &other.dest)
            && are_same(&self.element, &other.element)
            && are_same(&self.log, &other.log)
            && are_same_audits(&self.audit, &other.audit)
            && are_same_actions(&self.action, &other.action)
    }
}

impl Same for Side {
    fn same(&self, other: &Side) -> bool {
        self == other
    }
}

impl Same for Element {
    fn same(&self, other: &Element) -> bool {
        match (self, other) {
            (Element::Service(one), Element::Service(other)) => one.same(other),
            (Element::Port(one), Element::Port(other)) => one.same(other),
            (Element::Protocol(one), Element::Protocol(other)) => one.same(other),
            (Element::IcmpBlock(one), Element::IcmpBlock(other)) => one.same(other),
            (Element::IcmpType(one), Element::IcmpType(other)) => one.same(other),
            (Element::Masquerade, Element::Masquerade) => true,
            (Element::SourcePort(one), Element::SourcePort(other)) => one.same(other),
            (Element::Forward(one), Element::Forward(other)) => one.same(other),
            _ => false,
        }
    }
}

impl Same for RichLog {
    #[tactic(auto, using(crate::proofs::Fields::log_from_fields))]
    fn same(&self, other: &RichLog) -> bool {
        self.prefix.same(&other.prefix) && self.level == other.level && self.limit == other.limit
    }
}

fn are_same_audits(one: &Option<Option<Limit>>, other: &Option<Option<Limit>>) -> bool
    ensures { IsTrue result ↔ (one.now ≡ other.now) }
{
    one == other
}

fn are_same_actions(one: &Option<Action>, other: &Option<Action>) -> bool
    ensures { IsTrue result ↔ (one.now ≡ other.now) }
{
    one == other
}

/// Whether two values that may be absent are one.
fn are_same<T: Same>(one: &Option<T>, other: &Option<T>) -> bool
    ensures { IsTrue result ↔ (one.now ≡ other.now) }
{
    match (one, other) {
        (Some(one), Some(other)) => one.same(other),
        (None, None) => true,
        _ => false,
    }
}

impl Same for Iface {
    fn same(&self, other: &Iface) -> bool {
        self == other
    }
}

impl Same for Binding {
    fn same(&self, other: &Binding) -> bool {
        self == other
    }
}

impl Same for Item {
    fn same(&self, other: &Item) -> bool {
        self == other
    }
}
