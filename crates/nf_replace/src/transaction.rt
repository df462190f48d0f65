//! The transaction that replaces a ruleset.
ghost use Rattle.std.specs.Prelude.{◌≡◌, ◌++◌, map, IfOk, OnOk};
ghost use Rattle.nf_replace.specs.Replacing.{replacing};
ghost use Rattle.nf_rules.specs.declared.command.Command.TheVariants as command;

use fw_base::{Memory, Seq, TryCopy};
use nf_kernel::Tx;
use nf_rules::{Chain, Command, NfMap, NfSet, Ruleset};
use std::alloc::Global;

fn put_sets(alloc: Global, sets: &[NfSet], commands: &mut Seq<Command>) -> Result<(), Memory>
    ensures { OnOk result (commands.new ≡ commands.old ++ map command.PutSet sets.now) }
{
    for set in sets {
        commands.push(Command::PutSet(set.copy(alloc)?))?;
    }
    Ok(())
}

fn put_maps(alloc: Global, maps: &[NfMap], commands: &mut Seq<Command>) -> Result<(), Memory>
    ensures { OnOk result (commands.new ≡ commands.old ++ map command.PutMap maps.now) }
{
    for map in maps {
        commands.push(Command::PutMap(map.copy(alloc)?))?;
    }
    Ok(())
}

fn put_chains(alloc: Global, chains: &[Chain], commands: &mut Seq<Command>) -> Result<(), Memory>
    ensures { OnOk result (commands.new ≡ commands.old ++ map command.PutChain chains.now) }
{
    for chain in chains {
        commands.push(Command::PutChain(chain.copy(alloc)?))?;
    }
    Ok(())
}

/// The transaction that installs a ruleset in the place of whatever another: it clears all, and puts each set, each map and each chain in
/// its place, once (nft(8), "flush ruleset").
///
/// Refuses for want of memory alone.
pub fn replace(alloc: Global, rules: &Ruleset) -> Result<Tx, Memory>
    ensures { IfOk result (λ tx. tx.commands ≡ replacing rules.now) }
{
    let mut commands = Seq::new(alloc);
    commands.push(Command::Clear)?;
    put_sets(alloc, rules.sets.as_slice(), &mut commands)?;
    put_maps(alloc, rules.maps.as_slice(), &mut commands)?;
    put_chains(alloc, rules.chains.as_slice(), &mut commands)?;
    Ok(Tx { commands })
}
