//! Entries of sets as texts.
ghost use Rattle.std.specs.Prelude.{◌≡◌, IsTrue, IfOk, if◌then◌else◌, Err};
ghost use Rattle.std.specs.Option.{ok_or};
ghost use Rattle.fw_ipset.specs.Entries.{entry, item_of, mac_item, net_item};

use super::SetError;
use super::fit::fits;
use fw_addr::{read_mac, read_net};
use fw_model::{IpSet, Item, SetKind};

/// Reads an entry of a set (firewalld.ipset(5), `entry`): of a set of kind `hash:ip` an address of its family, which may
/// be written with its full prefix; of `hash:net` a net of its family; of `hash:mac` a hardware address.
///
/// Refuses every text for a set with a timeout, and else one that is no such entry.
pub fn read_item(set: &IpSet, text: &str) -> Result<Item, SetError>
    ensures { result ≡ (if set.now.timeout then Err SetError.IpsetWithTimeout
        else ok_or (entry set.now text.now) SetError.InvalidEntry) }
{
    if set.timeout {
        return Err(SetError::IpsetWithTimeout);
    }
    match parse_item(set.kind, text) {
        Some(item) if fits(set, &item) => Ok(item),
        _ => Err(SetError::InvalidEntry),
    }
}

/// What a text says in a set of a kind.
fn parse_item(kind: SetKind, text: &str) -> Option<Item>
    ensures { result ≡ item_of kind text.now }
{
    match kind {
        SetKind::Ip => net_item(text),
        SetKind::Net => net_item(text),
        SetKind::Mac => mac_item(text),
    }
}

fn net_item(text: &str) -> Option<Item>
    ensures { result ≡ net_item text.now }
{
    match read_net(text) {
        Ok(net) => Some(Item::Net(net)),
        Err(_) => None,
    }
}

fn mac_item(text: &str) -> Option<Item>
    ensures { result ≡ mac_item text.now }
{
    match read_mac(text) {
        Ok(address) => Some(Item::Mac(address)),
        Err(_) => None,
    }
}
