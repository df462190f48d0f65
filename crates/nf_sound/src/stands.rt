//! Whether what rules and maps name is there.
ghost use Rattle.std.specs.Prelude.{◌≡◌, ◌↔◌, IsTrue, is_some};
ghost use Rattle.std.specs.List.{list_all};
ghost use Rattle.nf_sound.specs.Names.{AreByName, chain_of, map_of, set_of};
ghost use Rattle.nf_sound.specs.Sound.{map_stands, rule_stands, statement_stands, test_stands};

use crate::named::{is_by_name, is_there};
use fw_base::Text;
use nf_rules::{MapBody, Match, NfMap, Rule, Ruleset, Stmt, Test};

/// Whether chains, sets and maps stand in order of names, each name once.
pub fn are_by_name(rules: &Ruleset) -> bool
    ensures { IsTrue result ↔ AreByName rules.now }
{
    is_by_name(rules.chains.as_slice())
        && is_by_name(rules.sets.as_slice())
        && is_by_name(rules.maps.as_slice())
}

/// Whether what the rules of all chains name is there.
pub fn chains_stand(rules: &Ruleset) -> bool
    requires { AreByName rules.now }
    ensures { result ≡ list_all (λ chain. list_all (rule_stands rules.now) chain.rules) rules.now.chains }
{
    rules
        .chains
        .as_slice()
        .iter()
        .all(|chain| rules_stand(rules, chain.rules.as_slice()))
}

fn rules_stand(rules: &Ruleset, list: &[Rule]) -> bool
    requires { AreByName rules.now }
    ensures { result ≡ list_all (rule_stands rules.now) list.now }
{
    list.iter().all(|rule| rule_stands(rules, rule))
}

fn rule_stands(rules: &Ruleset, rule: &Rule) -> bool
    requires { AreByName rules.now }
    ensures { result ≡ rule_stands rules.now rule.now }
{
    matches_stand(rules, rule.matches.as_slice()) && statements_stand(rules, rule.stmts.as_slice())
}

fn matches_stand(rules: &Ruleset, matches: &[Match]) -> bool
    requires { AreByName rules.now }
    ensures { result ≡ list_all (λ tested. test_stands rules.now tested.test) matches.now }
{
    matches
        .iter()
        .all(|tested| test_stands(rules, &tested.test))
}

fn statements_stand(rules: &Ruleset, statements: &[Stmt]) -> bool
    requires { AreByName rules.now }
    ensures { result ≡ list_all (statement_stands rules.now) statements.now }
{
    statements
        .iter()
        .all(|statement| statement_stands(rules, statement))
}

fn test_stands(rules: &Ruleset, test: &Test) -> bool
    requires { AreByName rules.now }
    ensures { result ≡ test_stands rules.now test.now }
{
    match test {
        Test::SrcSet(name) | Test::DstSet(name) | Test::SrcMacSet(name) => is_set(rules, name),
        Test::DportSet(_, name) => is_set(rules, name),
        _ => true,
    }
}

fn statement_stands(rules: &Ruleset, statement: &Stmt) -> bool
    requires { AreByName rules.now }
    ensures { result ≡ statement_stands rules.now statement.now }
{
    match statement {
        Stmt::Jump(name) | Stmt::Goto(name) => is_chain(rules, name),
        Stmt::VmapIn(name) | Stmt::VmapOut(name) | Stmt::VmapSrc(name) | Stmt::VmapDst(name) => {
            is_map(rules, name)
        }
        _ => true,
    }
}

/// Whether what all maps lead to is there.
pub fn maps_stand(rules: &Ruleset) -> bool
    requires { AreByName rules.now }
    ensures { result ≡ list_all (map_stands rules.now) rules.now.maps }
{
    rules
        .maps
        .as_slice()
        .iter()
        .all(|map| map_stands(rules, map))
}

fn map_stands(rules: &Ruleset, map: &NfMap) -> bool
    requires { AreByName rules.now }
    ensures { result ≡ map_stands rules.now map.now }
{
    match &map.body {
        MapBody::Ifaces(pairs) => values_stand(rules, pairs.as_slice()),
        MapBody::Nets(pairs) => values_stand(rules, pairs.as_slice()),
    }
}

fn values_stand<K>(rules: &Ruleset, pairs: &[(K, Text)]) -> bool
    requires { AreByName rules.now }
    ensures { result ≡ list_all (λ pair. is_some (chain_of rules.now.chains pair.1)) pairs.now }
{
    pairs.iter().all(|pair| is_chain(rules, &pair.1))
}

fn is_chain(rules: &Ruleset, name: &Text) -> bool
    requires { AreByName rules.now }
    ensures { result ≡ is_some (chain_of rules.now.chains name.now) }
{
    is_there(rules.chains.as_slice(), name.as_str())
}

fn is_set(rules: &Ruleset, name: &Text) -> bool
    requires { AreByName rules.now }
    ensures { result ≡ is_some (set_of rules.now.sets name.now) }
{
    is_there(rules.sets.as_slice(), name.as_str())
}

fn is_map(rules: &Ruleset, name: &Text) -> bool
    requires { AreByName rules.now }
    ensures { result ≡ is_some (map_of rules.now.maps name.now) }
{
    is_there(rules.maps.as_slice(), name.as_str())
}
