//! Entries of ipsets, and their texts.
ghost use Rattle.std.specs.Prelude.{◌≡◌, false, IfOk, OnOk};
ghost use Rattle.fw_act.specs.Acts.{Reads};
ghost use Rattle.fw_ipset_members.specs.Items.{item_of, item_text, items_of};

use fw_act::{Stop, refuse};
use fw_base::{Memory, Seq, Text};
use fw_ipset::{SetError, read_item};
use fw_model::{Code, IpSet, Item};
use std::alloc::Global;

/// The entry of an ipset that a text says.
#[tactic(auto, unfolding(crate::specs::Items::item_of))]
pub fn read_entry(alloc: Global, set: &IpSet, text: &str) -> Result<Item, Stop>
    ensures read { Reads result (item_of set.now text.now) }
    ensures open { OnOk result (set.now.timeout ≡ false) }
{
    match read_item(set, text) {
        Ok(item) => Ok(item),
        Err(SetError::IpsetWithTimeout) => {
            let name = set.name.as_str();
            Err(Stop::Refused(refuse(alloc, Code::IpsetWithTimeout, name)?))
        }
        Err(SetError::InvalidEntry) => {
            Err(Stop::Refused(refuse(alloc, Code::InvalidEntry, text)?))
        }
        Err(SetError::AlreadyEnabled | SetError::NotEnabled | SetError::Memory) => {
            Err(Stop::Memory)
        }
    }
}

/// The entries of an ipset that texts say.
pub fn read_entries(alloc: Global, set: &IpSet, texts: &[Text]) -> Result<Seq<Item>, Stop>
    ensures { Reads result (items_of set.now texts.now) }
{
    let mut items = Seq::new(alloc);
    for text in texts {
        let item = read_entry(alloc, set, text.as_str())?;
        items.push(item)?;
    }
    Ok(items)
}

/// An entry's canonical text.
pub fn item_text(alloc: Global, item: &Item) -> Result<Text, Memory>
    ensures { IfOk result (λ text. text ≡ item_text item.now) }
{
    match item {
        Item::Net(net) => Ok(Text::from_string(format!(in alloc; "{net}")?)),
        Item::Mac(mac) => Ok(Text::from_string(format!(in alloc; "{mac}")?)),
    }
}
