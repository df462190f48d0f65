//! How many links lead on from a chain, one after another.
ghost use Rattle.std.specs.Prelude.{◌≡◌, ◌↔◌, ◌<◌, ◌≤◌, [], ◌∷◌, IsTrue, IfSome, MatchOption, Some, length, slice_get, slice_set};
ghost use Rattle.std.specs.List.{flat_map};
ghost use Rattle.nf_rules.specs.declared.chain.Chain.{Chain};
ghost use Rattle.nf_sound.specs.Links.{Knows, KnowsNothing, Longest};
ghost use Rattle.nf_sound.specs.Names.{AreByName, StandsAt, chain_of};
ghost use Rattle.nf_sound.specs.Sound.{AreShort, IsShort};
ghost use Rattle.nf_sound.specs.Targets.{rule_targets, targets};

use crate::named::place_of;
use crate::target::{target, target_count};
use nf_rules::{Rule, Ruleset, Stmt};
use std::alloc::Global;

/// The most links in a row: so many jumps nft(8) lets a packet be in.
pub const MAX_LINKS: u8 = 16;

/// Whether no path has more than `MAX_LINKS` links.
///
/// What is known of a chain is noted, so that each is walked once. Where there's no memory for a note, a chain is walked as
/// often as a path leads to it.
pub fn paths_are_short(alloc: Global, rules: &Ruleset) -> bool
    requires { AreByName rules.now }
    ensures { IsTrue result ↔ AreShort rules.now }
{
    let count = rules.chains.as_slice().len();
    let mut known = no_notes(alloc, count);
    for place in 0..count {
        if !is_short_from(rules, known.as_mut_slice(), place) {
            return false;
        }
    }
    true
}

/// Whether no path from the chain at a place has more than `MAX_LINKS` links.
fn is_short_from(rules: &Ruleset, known: &mut [Option<u8>], place: usize) -> bool
    requires by_name { AreByName rules.now }
    requires within { place < length rules.now.chains }
    requires knows { Knows rules.now known.old }
    ensures knows { Knows rules.now known.new }
    ensures short { (chain : Chain) → slice_get rules.now.chains place ≡ Some chain
        → IsTrue result ↔ IsShort rules.now chain.name }
{
    links_from(rules, known, place, MAX_LINKS).is_some()
}

/// Notes for so many chains, or for fewer where there's no memory.
fn no_notes(alloc: Global, count: usize) -> Vec<Option<u8>>
    ensures { KnowsNothing result.items }
{
    let mut notes = Vec::new(alloc);
    for _ in 0..count {
        if notes.push(None).is_err() {
            break;
        }
    }
    notes
}

/// What is noted of the chain at a place.
fn noted(known: &[Option<u8>], place: usize) -> Option<u8>
    ensures { IfSome result (λ links. slice_get known.now place ≡ Some (Some links)) }
{
    match known.get(place) {
        Some(note) => *note,
        None => None,
    }
}

/// Notes how many links lead on from the chain at a place.
fn note(known: &mut [Option<u8>], place: usize, links: u8)
    ensures { known.new ≡ slice_set known.old place (Some links) }
{
    if place < known.len() {
        known[place] = Some(links);
    }
}

/// So many links where they are no more than `left`.
fn at_most(links: u8, left: u8) -> Option<u8>
    ensures { MatchOption result (left < links) (λ found. (found ≡ links) × (links ≤ left)) }
{
    if links <= left { Some(links) } else { None }
}

/// The place of the chain of a name.
fn place_of_chain(rules: &Ruleset, name: &str) -> Option<usize>
    requires { AreByName rules.now }
    ensures { MatchOption result (chain_of rules.now.chains name.now ≡ None)
        (StandsAt (λ chain. chain.name) name.now rules.now.chains) }
{
    place_of(rules.chains.as_slice(), name)
}

/// The rules of the chain at a place.
fn rules_at(rules: &Ruleset, place: usize) -> &[Rule]
    requires { place < length rules.now.chains }
    ensures { (chain : Chain) → slice_get rules.now.chains place ≡ Some chain → result.now ≡ chain.rules }
{
    rules.chains.as_slice()[place].rules.as_slice()
}

/// The most links in a row that lead on from the chain at a place, where they are no more than `left`.
#[cycle(links)]
fn links_from(rules: &Ruleset, known: &mut [Option<u8>], place: usize, left: u8) -> Option<u8>
    requires by_name { AreByName rules.now }
    requires within { place < length rules.now.chains }
    requires knows { Knows rules.now known.old }
    ensures knows { Knows rules.now known.new }
    ensures links { (chain : Chain) → slice_get rules.now.chains place ≡ Some chain
        → Longest rules.now (rule_targets rules.now.maps chain.rules) left result }
{
    if let Some(links) = noted(known, place) {
        return at_most(links, left);
    }
    let links = links_of_rules(rules, known, rules_at(rules, place), left)?;
    note(known, place, links);
    Some(links)
}

/// The most that begin in one of these rules.
#[cycle(links)]
fn links_of_rules(rules: &Ruleset, known: &mut [Option<u8>], list: &[Rule], left: u8) -> Option<u8>
    requires by_name { AreByName rules.now }
    requires knows { Knows rules.now known.old }
    ensures knows { Knows rules.now known.new }
    ensures links { Longest rules.now (rule_targets rules.now.maps list.now) left result }
{
    let mut most = 0;
    for rule in list {
        let links = links_of_statements(rules, known, rule.stmts.as_slice(), left)?;
        most = links.max(most);
    }
    Some(most)
}

/// The most that begin in one of these statements.
#[cycle(links)]
fn links_of_statements(
    rules: &Ruleset,
    known: &mut [Option<u8>],
    statements: &[Stmt],
    left: u8,
) -> Option<u8>
    requires by_name { AreByName rules.now }
    requires knows { Knows rules.now known.old }
    ensures knows { Knows rules.now known.new }
    ensures links { Longest rules.now (flat_map (targets rules.now.maps) statements.now) left result }
{
    let mut most = 0;
    for statement in statements {
        let links = links_of_statement(rules, known, statement, left)?;
        most = links.max(most);
    }
    Some(most)
}

/// The most that begin in a statement.
#[cycle(links)]
fn links_of_statement(
    rules: &Ruleset,
    known: &mut [Option<u8>],
    statement: &Stmt,
    left: u8,
) -> Option<u8>
    requires by_name { AreByName rules.now }
    requires knows { Knows rules.now known.old }
    ensures knows { Knows rules.now known.new }
    ensures links { Longest rules.now (targets rules.now.maps statement.now) left result }
{
    let mut most = 0;
    for at in 0..target_count(rules, statement) {
        if let Some(name) = target(rules, statement, at) {
            let links = links_to(rules, known, name, left)?;
            most = links.max(most);
        }
    }
    Some(most)
}

/// The most that begin with one to the chain of a name.
#[cycle(links)]
fn links_to(rules: &Ruleset, known: &mut [Option<u8>], name: &str, left: u8) -> Option<u8>
    requires by_name { AreByName rules.now }
    requires knows { Knows rules.now known.old }
    ensures knows { Knows rules.now known.new }
    ensures links { Longest rules.now (name.now ∷ []) left result }
{
    if left == 0 {
        return None;
    }
    match place_of_chain(rules, name) {
        Some(place) => Some(links_from(rules, known, place, left - 1)? + 1),
        None => Some(1),
    }
}
