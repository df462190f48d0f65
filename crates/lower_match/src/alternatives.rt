//! Alternatives of one match or two.
ghost use Rattle.std.specs.Prelude.{◌≡◌, [], ◌∷◌, IfOk};
ghost use Rattle.lower_match.specs.Forms.{alone, is, port_test, source_port_test};

use fw_base::{Memory, Seq};
use fw_model::Port;
use nf_rules::{Match, Test};
use std::alloc::Global;

/// A test that must hold.
pub fn is(test: Test) -> Match
    ensures { result ≡ is test }
{
    Match { not: false, test }
}

/// The alternative of one test.
pub fn of_one(alloc: Global, test: Test) -> Result<Seq<Match>, Memory>
    ensures { IfOk result (λ matches. matches ≡ is test ∷ []) }
{
    let mut matches = Seq::new(alloc);
    matches.push(is(test))?;
    Ok(matches)
}

/// The alternative of two tests.
pub fn of_two(alloc: Global, first: Test, second: Test) -> Result<Seq<Match>, Memory>
    ensures { IfOk result (λ matches. matches ≡ is first ∷ is second ∷ []) }
{
    let mut matches = of_one(alloc, first)?;
    matches.push(is(second))?;
    Ok(matches)
}

/// One test as the only alternative.
pub fn alone(alloc: Global, test: Test) -> Result<Seq<Seq<Match>>, Memory>
    ensures { IfOk result (λ alternatives. alternatives ≡ alone test) }
{
    let mut alternatives = Seq::new(alloc);
    alternatives.push(of_one(alloc, test)?)?;
    Ok(alternatives)
}

/// Two tests as the only alternative.
pub fn both(alloc: Global, first: Test, second: Test) -> Result<Seq<Seq<Match>>, Memory>
    ensures { IfOk result (λ alternatives. alternatives ≡ (is first ∷ is second ∷ []) ∷ []) }
{
    let mut alternatives = Seq::new(alloc);
    alternatives.push(of_two(alloc, first, second)?)?;
    Ok(alternatives)
}

/// The protocol, and a destination port in the range.
pub fn port_test(port: &Port) -> Test
    ensures { result ≡ port_test port.now }
{
    Test::Dport(port.proto, port.range)
}

/// The protocol, and a source port in the range.
pub fn source_port_test(port: &Port) -> Test
    ensures { result ≡ source_port_test port.now }
{
    Test::Sport(port.proto, port.range)
}
