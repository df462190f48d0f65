//! What is decided without any zone's settings.
ghost use Rattle.std.specs.Prelude.{◌≡◌, ◌++◌, codes, OnOk};
ghost use Rattle.fw_addr.specs.declared.packet.CtState.TheVariants as state;
ghost use Rattle.lower_hooks.specs.Rules.{early_rules, invalid_rules, known_rules, lo_out};
ghost use Rattle.lower_zone.specs.Forms.{is};
ghost use Rattle.nf_rules.specs.declared.test.Test.TheVariants as test;

use crate::denied::push_denial;
use crate::rules::push_where;
use fw_addr::{CtState, Iface, read_iface};
use fw_base::{Memory, Seq, Text};
use fw_model::{Config, Verdict};
use lower_zone::one;
use nf_rules::{Match, Rule, Test};
use std::alloc::Global;

/// The loopback interface.
fn loopback() -> Iface
    ensures { result ≡ codes "lo" }
{
    read_iface("lo").unwrap()
}

/// Appends what accepts the packets of connections that were let in.
pub fn push_known(alloc: Global, rules: &mut Seq<Rule>) -> Result<(), Memory>
    ensures { OnOk result (rules.new ≡ rules.old ++ known_rules) }
{
    push_where(
        alloc,
        Test::State(CtState::Established),
        Verdict::Accept,
        rules,
    )?;
    push_where(alloc, Test::State(CtState::Related), Verdict::Accept, rules)
}

fn is_invalid() -> Match
    ensures { result ≡ is (test.State state.Invalid) }
{
    Match {
        not: false,
        test: Test::State(CtState::Invalid),
    }
}

/// Appends what drops the packets of no connection, behind a line where denied packets are told of.
fn push_invalid(alloc: Global, config: &Config, rules: &mut Seq<Rule>) -> Result<(), Memory>
    ensures { OnOk result (rules.new ≡ rules.old ++ invalid_rules config.now) }
{
    let asked = one(alloc, is_invalid())?;
    let prefix = Text::of(alloc, "STATE_INVALID_DROP: ")?;
    push_denial(alloc, config.log_denied, asked, prefix, rules)?;
    push_where(alloc, Test::State(CtState::Invalid), Verdict::Drop, rules)
}

/// Appends what is decided first of packets to the host and of those that are forwarded.
pub fn push_early(alloc: Global, config: &Config, rules: &mut Seq<Rule>) -> Result<(), Memory>
    ensures { OnOk result (rules.new ≡ rules.old ++ early_rules config.now) }
{
    push_known(alloc, rules)?;
    push_where(alloc, Test::Dnat, Verdict::Accept, rules)?;
    push_where(alloc, Test::In(loopback()), Verdict::Accept, rules)?;
    push_invalid(alloc, config, rules)
}

/// Appends what accepts the packets of the host that leave by the loopback interface.
pub fn push_lo(alloc: Global, rules: &mut Seq<Rule>) -> Result<(), Memory>
    ensures { OnOk result (rules.new ≡ rules.old ++ lo_out) }
{
    push_where(alloc, Test::Out(loopback()), Verdict::Accept, rules)
}
