//! The settings beside rich rules: what they let in, and the ICMP types that they block.
ghost use Rattle.std.specs.Prelude.{◌≡◌, ◌++◌, [], ◌∷◌, List, map, true, IfOk, OnOk, ℕ};
ghost use Rattle.std.specs.List.{list_any};
ghost use Rattle.fw_hits.specs.Hits.{hits};
ghost use Rattle.fw_model.specs.declared.packet.Packet.{Packet};
ghost use Rattle.fw_model.specs.declared.setting.Setting.TheVariants as setting;
ghost use Rattle.fw_verdict.specs.Items.{icmp_denied, listed_items};
ghost use Rattle.fw_verdict.specs.Walk.{walk};
ghost use Rattle.nf_rules.specs.declared.chain.Chain.{Chain};
ghost use Rattle.lower_zone.specs.Forms.{icmp_alternatives, other_icmp_rules};
ghost use Rattle.lower_zone.specs.Verdicts.{can_decide, decided_by, listed_icmp, listed_settings};
ghost use Rattle.lower_zone.specs.Work.{AreNamed, Adds, Tells};

use crate::rules::{is, one, push_decision, push_each, push_own};
use fw_addr::{ICMP, ICMPV6, Proto};
use fw_base::{Memory, Seq, Text, TryCopy};
use fw_model::{Config, Port, Rules, Setting, Verdict};
use fw_verdict::REJECT;
use lower_match::matches_of;
use nf_rules::{Chain, Match, Rule, Stmt, Test};
use std::alloc::Global;

fn push_services(alloc: Global, names: &[Text], settings: &mut Seq<Setting>) -> Result<(), Memory>
    ensures { OnOk result (settings.new ≡ settings.old ++ map setting.Service names.now) }
{
    for name in names {
        settings.push(Setting::Service(name.copy(alloc)?))?;
    }
    Ok(())
}

fn push_ports(ports: &[Port], settings: &mut Seq<Setting>) -> Result<(), Memory>
    ensures { OnOk result (settings.new ≡ settings.old ++ map setting.Port ports.now) }
{
    for port in ports {
        settings.push(Setting::Port(*port))?;
    }
    Ok(())
}

fn push_protocols(protocols: &[Proto], settings: &mut Seq<Setting>) -> Result<(), Memory>
    ensures { OnOk result (settings.new ≡ settings.old ++ map setting.Protocol protocols.now) }
{
    for protocol in protocols {
        settings.push(Setting::Protocol(*protocol))?;
    }
    Ok(())
}

fn push_source_ports(ports: &[Port], settings: &mut Seq<Setting>) -> Result<(), Memory>
    ensures { OnOk result (settings.new ≡ settings.old ++ map setting.SourcePort ports.now) }
{
    for port in ports {
        settings.push(Setting::SourcePort(*port))?;
    }
    Ok(())
}

fn push_icmp(alloc: Global, names: &[Text], settings: &mut Seq<Setting>) -> Result<(), Memory>
    ensures { OnOk result (settings.new ≡ settings.old ++ map setting.IcmpBlock names.now) }
{
    for name in names {
        settings.push(Setting::IcmpBlock(name.copy(alloc)?))?;
    }
    Ok(())
}

/// The listed ICMP types.
fn icmp_settings(alloc: Global, names: &[Text]) -> Result<Seq<Setting>, Memory>
    ensures { IfOk result (λ settings. settings ≡ map setting.IcmpBlock names.now) }
{
    let mut settings = Seq::new(alloc);
    push_icmp(alloc, names, &mut settings)?;
    Ok(settings)
}

/// The settings that let packets in, in their order: with inversion the listed ICMP types, too.
fn listed_settings(alloc: Global, listed: &Rules, inversion: bool) -> Result<Seq<Setting>, Memory>
    ensures { IfOk result (λ settings. settings ≡ listed_settings listed.now inversion) }
{
    let mut settings = Seq::new(alloc);
    push_services(alloc, listed.services.as_slice(), &mut settings)?;
    push_ports(listed.ports.as_slice(), &mut settings)?;
    push_protocols(listed.protocols.as_slice(), &mut settings)?;
    push_source_ports(listed.source_ports.as_slice(), &mut settings)?;
    if inversion {
        push_icmp(alloc, listed.icmp_blocks.as_slice(), &mut settings)?;
    }
    Ok(settings)
}

/// Decides the packets that one of the settings is about.
fn push_settings(
    alloc: Global,
    config: &Config,
    settings: &[Setting],
    verdict: Verdict,
    rules: &mut Seq<Rule>,
) -> Result<(), Memory>
    ensures { OnOk result ((chains : List Chain) → ((packet : Packet) → can_decide verdict packet ≡ true)
        → Adds config.now (walk (map (decided_by config.now verdict) settings.now)) rules.old rules.new chains chains) }
{
    for setting in settings {
        push_setting(alloc, config, setting, verdict, rules)?;
    }
    Ok(())
}

fn push_setting(
    alloc: Global,
    config: &Config,
    setting: &Setting,
    verdict: Verdict,
    rules: &mut Seq<Rule>,
) -> Result<(), Memory>
    ensures { OnOk result ((chains : List Chain) → ((packet : Packet) → can_decide verdict packet ≡ true)
        → Adds config.now (walk (decided_by config.now verdict setting.now ∷ [])) rules.old rules.new chains chains) }
{
    let alternatives = matches_of(
        alloc,
        setting,
        config.services.as_slice(),
        config.ipsets.as_slice(),
    )?;
    push_decision(alloc, alternatives, verdict, rules)
}

fn push_all(alternatives: Seq<Seq<Match>>, all: &mut Seq<Seq<Match>>) -> Result<(), Memory>
    ensures { OnOk result (all.new ≡ all.old ++ alternatives) }
{
    for matches in alternatives.into_vec() {
        all.push(matches)?;
    }
    Ok(())
}

/// The alternatives of settings, one after another.
fn all_matches(
    alloc: Global,
    config: &Config,
    settings: &[Setting],
) -> Result<Seq<Seq<Match>>, Memory>
    ensures { IfOk result (λ alternatives. Tells config.now alternatives (λ packet. list_any (λ told. hits config.now told packet) settings.now)) }
{
    let mut all = Seq::new(alloc);
    for setting in settings {
        let alternatives = matches_of(
            alloc,
            setting,
            config.services.as_slice(),
            config.ipsets.as_slice(),
        )?;
        push_all(alternatives, &mut all)?;
    }
    Ok(all)
}

/// ICMP, and ICMPv6.
fn icmp_alternatives(alloc: Global) -> Result<Seq<Seq<Match>>, Memory>
    ensures { IfOk result (λ alternatives. alternatives ≡ icmp_alternatives) }
{
    let mut alternatives = one(alloc, one(alloc, is(Test::Proto(Proto(ICMP))))?)?;
    alternatives.push(one(alloc, is(Test::Proto(Proto(ICMPV6))))?)?;
    Ok(alternatives)
}

/// Rejects ICMP, but goes back where one of the alternatives is met.
fn other_icmp_rules(alloc: Global, listed: Seq<Seq<Match>>) -> Result<Seq<Rule>, Memory>
    ensures { IfOk result (λ rules. rules ≡ other_icmp_rules listed) }
{
    let mut rules = Seq::new(alloc);
    let back = one(alloc, Stmt::Return)?;
    push_each(alloc, listed, &back, &mut rules)?;
    push_decision(alloc, icmp_alternatives(alloc)?, REJECT, &mut rules)?;
    Ok(rules)
}

/// Appends what blocks ICMP types: those listed, or with inversion all others, for which a chain of its own stands.
///
/// Refuses for want of memory alone.
pub fn push_blocks(
    alloc: Global,
    config: &Config,
    block: &Text,
    listed: &Rules,
    inversion: bool,
    rules: &mut Seq<Rule>,
    chains: &mut Seq<Chain>,
) -> Result<(), Memory>
    ensures adds { OnOk result (Adds config.now (walk (icmp_denied config.now listed.now inversion)) rules.old rules.new chains.old chains.new) }
    ensures names { OnOk result ((parts : ℕ) → AreNamed block.now parts chains.old → AreNamed block.now parts chains.new) }
{
    let blocks = icmp_settings(alloc, listed.icmp_blocks.as_slice())?;
    if inversion {
        let matches = all_matches(alloc, config, blocks.as_slice())?;
        let own = other_icmp_rules(alloc, matches)?;
        push_own(alloc, block, own, rules, chains)
    } else {
        push_settings(alloc, config, blocks.as_slice(), REJECT, rules)
    }
}

/// Appends what lets packets in: services, ports, protocols and source ports, and with inversion ICMP types.
///
/// Refuses for want of memory alone.
pub fn push_listed(
    alloc: Global,
    config: &Config,
    listed: &Rules,
    inversion: bool,
    rules: &mut Seq<Rule>,
) -> Result<(), Memory>
    ensures { OnOk result ((chains : List Chain) → Adds config.now (walk (listed_items config.now listed.now inversion)) rules.old rules.new chains chains) }
{
    let settings = listed_settings(alloc, listed, inversion)?;
    push_settings(alloc, config, settings.as_slice(), Verdict::Accept, rules)
}
