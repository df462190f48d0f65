//! Which items a set may hold.
ghost use Rattle.std.specs.Prelude.{◌≡◌};
ghost use Rattle.fw_addr.specs.Subnets.{family};
ghost use Rattle.fw_ipset.specs.Entries.{fits, is_same_family, is_whole, may_hold};

use fw_addr::{Family, Net};
use fw_model::{IpSet, Item, SetKind};

/// Whether an item fits a set (firewalld.ipset(5), `type` and `family`): one of kind `hash:ip` holds addresses of its family, one of
/// `hash:net` nets of its family, and one of `hash:mac` hardware addresses.
pub fn fits(set: &IpSet, item: &Item) -> bool
    ensures { result ≡ fits set.now item.now }
{
    may_hold(set.kind, set.family, item)
}

/// Whether a set of a kind and a family may hold an item.
fn may_hold(kind: SetKind, family: Family, item: &Item) -> bool
    ensures { result ≡ may_hold kind family item.now }
{
    match (kind, item) {
        (SetKind::Ip, Item::Net(net)) => is_of(net, family) && is_whole(net),
        (SetKind::Net, Item::Net(net)) => is_of(net, family),
        (SetKind::Mac, Item::Mac(_)) => true,
        _ => false,
    }
}

/// Whether a net is of a family.
fn is_of(net: &Net, wanted: Family) -> bool
    ensures { result ≡ is_same_family (family net.now.address) wanted }
{
    net.addr().family() == wanted
}

/// Whether a net is one address.
fn is_whole(net: &Net) -> bool
    ensures { result ≡ is_whole net.now }
{
    net.prefix() == net.addr().width()
}
