//! Lists of texts that replies carry.
ghost use Rattle.std.specs.Prelude.{◌≡◌, map, IfOk};
ghost use Rattle.fw_ipset_members.specs.Items.{item_text};

use super::items::item_text;
use fw_base::{Memory, Seq, Text};
use fw_model::{IpSet, Item};
use std::alloc::Global;

/// The names of ipsets.
pub fn set_names(alloc: Global, sets: &[IpSet]) -> Result<Seq<Text>, Memory>
    ensures { IfOk result (λ names. names ≡ map (λ set. set.name) sets.now) }
{
    let mut names = Seq::new(alloc);
    for set in sets {
        names.push(Text::of(alloc, set.name.as_str())?)?;
    }
    Ok(names)
}

/// The texts of entries.
pub fn item_texts(alloc: Global, items: &[Item]) -> Result<Seq<Text>, Memory>
    ensures { IfOk result (λ texts. texts ≡ map item_text items.now) }
{
    let mut texts = Seq::new(alloc);
    for item in items {
        texts.push(item_text(alloc, item)?)?;
    }
    Ok(texts)
}
