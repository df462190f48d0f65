//! A ruleset that is read line by line.
use crate::packet::{net_of, outcome_text, packet_of, verdict_word};
use crate::rule::rule_of;
use anyhow::Result;
use fw_addr::{Iface, Net, read_iface};
use fw_base::{Memory, Seq, Text};
use fw_model::Packet;
use nf_chains::{eval_uncounted, eval_verdict};
use nf_rules::{Base, Chain, ChainKind, Hook, MapBody, NfMap, NfSet, Rule, Ruleset, SetBody};
use nf_sound::is_sound;
use std::alloc::{AllocError, Global};

/// The empty ruleset.
pub fn start(alloc: Global) -> Ruleset {
    Ruleset {
        chains: Seq::new(alloc),
        sets: Seq::new(alloc),
        maps: Seq::new(alloc),
    }
}

/// The ruleset behind a line.
pub fn read_line(alloc: Global, rows: Ruleset, line: &str) -> Result<Ruleset, Memory> {
    let Ruleset {
        mut chains,
        mut sets,
        mut maps,
    } = rows;
    match line.split_once(' ') {
        Some(("chain", rest)) => chains.push(chain_of(alloc, ChainKind::Filter, rest)?)?,
        Some(("nat", rest)) => chains.push(chain_of(alloc, ChainKind::Nat, rest)?)?,
        Some(("rule", rest)) => chains = with_rule(alloc, chains, rule_of(alloc, rest)?)?,
        Some(("set", name)) => sets.push(NfSet {
            name: Text::of(alloc, name)?,
            body: SetBody::Nets(Seq::new(alloc)),
        })?,
        Some(("nets", rest)) => maps.push(nets_of(alloc, rest)?)?,
        Some(("ifaces", rest)) => maps.push(ifaces_of(alloc, rest)?)?,
        _ => {
            if line == "clear" {
                return Ok(start(alloc));
            }
        }
    }
    Ok(Ruleset { chains, sets, maps })
}

/// The last chain has a rule more.
fn with_rule(alloc: Global, chains: Seq<Chain>, rule: Rule) -> Result<Seq<Chain>, Memory> {
    let mut items = chains.into_vec();
    match items.pop() {
        Some(mut last) => {
            last.rules.push(rule)?;
            items.push(last)?;
        }
        None => {
            items.push(Chain {
                name: Text::of(alloc, "none")?,
                base: None,
                rules: Seq::new(alloc),
            })?;
        }
    }
    Ok(Seq::from_vec(items))
}

fn chain_of(alloc: Global, kind: ChainKind, words: &str) -> Result<Chain, Memory> {
    let mut parts = words.split_whitespace();
    let name = Text::of(alloc, parts.next().unwrap_or(""))?;
    let base = match parts.next() {
        Some(hook) => Some(Base {
            kind,
            hook: hook_of(hook),
            priority: priority_of(parts.next().unwrap_or("")),
        }),
        None => None,
    };
    Ok(Chain {
        name,
        base,
        rules: Seq::new(alloc),
    })
}

fn hook_of(word: &str) -> Hook {
    match word {
        "prerouting" => Hook::Prerouting,
        "forward" => Hook::Forward,
        "output" => Hook::Output,
        "postrouting" => Hook::Postrouting,
        _ => Hook::Input,
    }
}

fn priority_of(word: &str) -> i32 {
    word.parse().unwrap_or(0)
}

/// The map of a name and keys that are nets.
fn nets_of(alloc: Global, words: &str) -> Result<NfMap, Memory> {
    let mut parts = words.split_whitespace();
    let name = Text::of(alloc, parts.next().unwrap_or(""))?;
    let mut pairs: Seq<(Net, Text)> = Seq::new(alloc);
    for word in parts {
        if let Some((key, chain)) = word.split_once('=') {
            pairs.push((net_of(key), Text::of(alloc, chain)?))?;
        }
    }
    Ok(NfMap {
        name,
        body: MapBody::Nets(pairs),
    })
}

/// The map of a name and keys that are links.
fn ifaces_of(alloc: Global, words: &str) -> Result<NfMap, Memory> {
    let mut parts = words.split_whitespace();
    let name = Text::of(alloc, parts.next().unwrap_or(""))?;
    let mut pairs: Seq<(Iface, Text)> = Seq::new(alloc);
    for word in parts {
        if let Some((key, chain)) = word.split_once('=')
            && let Ok(entry) = read_iface(key)
        {
            pairs.push((entry, Text::of(alloc, chain)?))?;
        }
    }
    Ok(NfMap {
        name,
        body: MapBody::Ifaces(pairs),
    })
}

/// What a line asks for, in words; nothing where it asks for nothing.
pub fn answer(alloc: Global, rows: &Ruleset, line: &str) -> Result<String, AllocError> {
    if line == "sound" {
        return sound_text(alloc, rows);
    }
    match line.split_once(' ') {
        Some(("packet", rest)) => packet_text(alloc, rows, rest),
        Some(("case", _)) => String::from_str(alloc, line),
        _ => Ok(String::new(alloc)),
    }
}

fn sound_text(alloc: Global, rows: &Ruleset) -> Result<String, AllocError> {
    let sound = is_sound(alloc, rows);
    format!(in alloc; "sound={sound}")
}

fn packet_text(alloc: Global, rows: &Ruleset, words: &str) -> Result<String, AllocError> {
    let mut parts = words.split_whitespace();
    let from = parts.next().unwrap_or("");
    let to = parts.next().unwrap_or("");
    let proto = parts.next().unwrap_or("");
    let kind = parts.next().unwrap_or("");
    let packet = packet_of(alloc, from, to, proto, kind).map_err(|_| AllocError)?;
    evaluated_text(alloc, rows, &packet)
}

fn evaluated_text(alloc: Global, rows: &Ruleset, packet: &Packet) -> Result<String, AllocError> {
    if !is_sound(alloc, rows) {
        return String::from_str(alloc, "not evaluated");
    }
    let verdict = verdict_word(eval_verdict(rows, packet));
    let outcome = eval_uncounted(alloc, rows, packet).map_err(|_| AllocError)?;
    let text = outcome_text(alloc, &outcome)?;
    format!(in alloc; "{verdict} {text}")
}
