//! The sets of a configuration as sets of nft(8).
ghost use Rattle.std.specs.Prelude.{◌≡◌, IfOk, IsPermutation, map};
ghost use Rattle.std.specs.List.{flat_map};
ghost use Rattle.lower_all.specs.Joined.{HaveSets, kept, mac_of, net_of, set_of};
ghost use Rattle.lower_all.specs.Ordered.{IsOrdered};
ghost use Rattle.lower_match.specs.Lowers.{set_name};
ghost use Rattle.nf_rules.specs.declared.set.SetBody.TheVariants as body;

use fw_base::{Memory, Seq, Text};
use fw_model::{IpSet, Item, SetKind};
use nf_rules::{NfSet, SetBody};
use std::alloc::Global;

/// The entries that the firewall keeps: none where they come with a timeout.
fn kept(set: &IpSet) -> &[Item]
    ensures { result.now ≡ kept set.now }
{
    if set.timeout {
        &[]
    } else {
        set.items.as_slice()
    }
}

fn nets(alloc: Global, items: &[Item]) -> Result<SetBody, Memory>
    ensures { IfOk result (λ made. made ≡ body.Nets (flat_map net_of items.now)) }
{
    let mut nets = Seq::new(alloc);
    for item in items {
        if let Item::Net(net) = item {
            nets.push(*net)?;
        }
    }
    Ok(SetBody::Nets(nets))
}

fn macs(alloc: Global, items: &[Item]) -> Result<SetBody, Memory>
    ensures { IfOk result (λ made. made ≡ body.Macs (flat_map mac_of items.now)) }
{
    let mut macs = Seq::new(alloc);
    for item in items {
        if let Item::Mac(mac) = item {
            macs.push(*mac)?;
        }
    }
    Ok(SetBody::Macs(macs))
}

fn set_name(alloc: Global, name: &Text) -> Result<Text, Memory>
    ensures { IfOk result (λ text. text ≡ set_name name.now) }
{
    let string = format!(in alloc; "ipset_{name}")?;
    Ok(Text::from_string(string))
}

/// The set of an ipset, under `ipset_` and its name.
fn set_of(alloc: Global, set: &IpSet) -> Result<NfSet, Memory>
    ensures { IfOk result (λ made. made ≡ set_of set.now) }
{
    let body = match set.kind {
        SetKind::Mac => macs(alloc, kept(set))?,
        SetKind::Ip => nets(alloc, kept(set))?,
        SetKind::Net => nets(alloc, kept(set))?,
    };
    Ok(NfSet {
        name: set_name(alloc, &set.name)?,
        body,
    })
}

/// The sets of ipsets, as these are listed.
fn listed(alloc: Global, ipsets: &[IpSet]) -> Result<Vec<NfSet>, Memory>
    ensures { IfOk result (λ sets. sets.items ≡ map set_of ipsets.now) }
{
    let mut sets = Vec::new(alloc);
    for set in ipsets {
        sets.push(set_of(alloc, set)?)?;
    }
    Ok(sets)
}

/// Sets in order of their names.
fn by_name(sets: Vec<NfSet>) -> Result<Seq<NfSet>, Memory>
    ensures moved { IfOk result (λ ordered. IsPermutation sets.items ordered) }
    ensures sorted { IfOk result (λ ordered. IsOrdered (λ (set : NfSet). set.name) ordered) }
{
    let mut ordered = sets;
    ordered.sort_by(|one, other| one.name.as_str().cmp(&other.name.as_str()))?;
    Ok(Seq::from_vec(ordered))
}

/// The sets of ipsets, in order of their names.
pub fn sets_of(alloc: Global, ipsets: &[IpSet]) -> Result<Seq<NfSet>, Memory>
    ensures { IfOk result (HaveSets ipsets.now) }
{
    by_name(listed(alloc, ipsets)?)
}
