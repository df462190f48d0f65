//! The chains of a block: one for each of its parts in which something stands, and one that leads through them.
ghost use Rattle.std.specs.Prelude.{◌≡◌, List, [], IfOk, OnOk, ℕ, suc};
ghost use Rattle.fw_model.specs.declared.config.Config.{Config};
ghost use Rattle.fw_model.specs.declared.packet.Packet.{Packet};
ghost use Rattle.fw_verdict.specs.Items.{items};
ghost use Rattle.fw_verdict.specs.Walk.{Walked, walk};
ghost use Rattle.nf_rules.specs.declared.chain.Chain.{Chain};
ghost use Rattle.lower_zone.specs.Evaluates.{Evaluates};
ghost use Rattle.fw_verdict.specs.declared.rich.Part.{Part};
ghost use Rattle.lower_zone.specs.Names.{NamesDiffer, block_name, part_name, place};
ghost use Rattle.lower_zone.specs.Stands.{StandAlone};
ghost use Rattle.lower_zone.specs.Parts.{part_items, plain_items};
ghost use Rattle.lower_zone.specs.Work.{AreNamed, Adds, AddsParts};

use crate::listed::{push_blocks, push_listed};
use crate::names::{block_name, part_name};
use crate::part::push_rich;
use crate::rules::jump_to;
use fw_base::{Memory, Seq, Text};
use fw_model::{Config, Rules};
use fw_verdict::Part;
use nf_rules::{Chain, Rule};
use std::alloc::Global;

/// Appends what stands in a part beside rich rules.
fn push_plain(
    alloc: Global,
    config: &Config,
    block: &Text,
    part: Part,
    settings: &Rules,
    inversion: bool,
    rules: &mut Seq<Rule>,
    chains: &mut Seq<Chain>,
) -> Result<(), Memory>
    ensures adds { OnOk result (Adds config.now (walk (plain_items config.now settings.now inversion part)) rules.old rules.new chains.old chains.new) }
    ensures names { OnOk result ((parts : ℕ) → AreNamed block.now parts chains.old → AreNamed block.now parts chains.new) }
{
    match part {
        Part::Deny => push_blocks(alloc, config, block, settings, inversion, rules, chains),
        Part::Allow => push_listed(alloc, config, settings, inversion, rules),
        Part::Pre => Ok(()),
        Part::Log => Ok(()),
        Part::Post => Ok(()),
    }
}

/// Appends a chain and a jump to it, unless the chain is empty.
fn push_chain(
    alloc: Global,
    name: Text,
    made: Seq<Rule>,
    rules: &mut Seq<Rule>,
    chains: &mut Seq<Chain>,
) -> Result<(), Memory>
    ensures adds { OnOk result ((config : Config) (walked : Packet → Walked) (before : List Chain)
        → Adds config walked [] made before chains.old
        → AddsParts config walked rules.old rules.new before chains.new) }
    ensures names { OnOk result ((block : List ℕ) (part : Part) → name ≡ part_name part block → AreNamed block (place part) chains.old → AreNamed block (suc (place part)) chains.new) }
{
    if made.as_slice().is_empty() {
        return Ok(());
    }
    rules.push(jump_to(alloc, &name)?)?;
    chains.push(Chain {
        name,
        base: None,
        rules: made,
    })
}

/// Appends what a part does: rich rules before others.
fn push_part(
    alloc: Global,
    config: &Config,
    block: &Text,
    part: Part,
    settings: &Rules,
    inversion: bool,
    rules: &mut Seq<Rule>,
    chains: &mut Seq<Chain>,
) -> Result<(), Memory>
    ensures adds { OnOk result (AddsParts config.now (walk (part_items config.now settings.now inversion part)) rules.old rules.new chains.old chains.new) }
    ensures names { OnOk result (AreNamed block.now (place part) chains.old → AreNamed block.now (suc (place part)) chains.new) }
{
    let mut made = Seq::new(alloc);
    push_rich(alloc, config, block, part, settings, &mut made, chains)?;
    push_plain(
        alloc, config, block, part, settings, inversion, &mut made, chains,
    )?;
    let name = part_name(alloc, part, block)?;
    push_chain(alloc, name, made, rules, chains)
}

/// Appends what all five parts do, in their order.
fn push_parts(
    alloc: Global,
    config: &Config,
    block: &Text,
    settings: &Rules,
    inversion: bool,
    rules: &mut Seq<Rule>,
    chains: &mut Seq<Chain>,
) -> Result<(), Memory>
    ensures adds { OnOk result (AddsParts config.now (walk (items config.now settings.now inversion)) rules.old rules.new chains.old chains.new) }
    ensures names { OnOk result (AreNamed block.now 0 chains.old → AreNamed block.now 5 chains.new) }
{
    push_part(
        alloc,
        config,
        block,
        Part::Pre,
        settings,
        inversion,
        rules,
        chains,
    )?;
    push_part(
        alloc,
        config,
        block,
        Part::Log,
        settings,
        inversion,
        rules,
        chains,
    )?;
    push_part(
        alloc,
        config,
        block,
        Part::Deny,
        settings,
        inversion,
        rules,
        chains,
    )?;
    push_part(
        alloc,
        config,
        block,
        Part::Allow,
        settings,
        inversion,
        rules,
        chains,
    )?;
    push_part(
        alloc,
        config,
        block,
        Part::Post,
        settings,
        inversion,
        rules,
        chains,
    )
}

/// The chains of a block: the settings of a zone or a policy, under a name.
///
/// Refuses for want of memory alone.
pub fn block_chains(
    alloc: Global,
    config: &Config,
    block: &Text,
    settings: &Rules,
    inversion: bool,
) -> Result<Seq<Chain>, Memory>
    ensures evaluates { IfOk result (λ chains. Evaluates config.now chains (block_name block.now) (walk (items config.now settings.now inversion))) }
    ensures names { IfOk result (λ chains. NamesDiffer block.now chains) }
    ensures stands { IfOk result (λ chains. StandAlone config.now chains (block_name block.now)) }
{
    let mut rules = Seq::new(alloc);
    let mut chains = Seq::new(alloc);
    push_parts(
        alloc,
        config,
        block,
        settings,
        inversion,
        &mut rules,
        &mut chains,
    )?;
    let name = block_name(alloc, block)?;
    chains.push(Chain {
        name,
        base: None,
        rules,
    })?;
    Ok(chains)
}
