//! The steps of the settings of a zone or a policy.
ghost use Rattle.std.specs.Prelude.{◌≡◌, ◌∷◌, [], IfOk, OnOk, map};
ghost use Rattle.fw_valid.specs.Each.{Each};
ghost use Rattle.fw_valid.specs.Rules.{IsPlainForward};
ghost use Rattle.fw_valid.specs.Valid.{AreWritten};
ghost use Rattle.fw_verdict.specs.Outside.{leaving_items, plain_items, port_item, translation_items};
ghost use Rattle.fw_verdict.specs.Sides.{side_items};
ghost use Rattle.lower_outside.specs.Steps.{AreTold, Tell};

use crate::rich::{push_masquerade, push_placed, push_translation, target_of};
use crate::steps::Step;
use fw_base::{Memory, Seq};
use fw_model::{Config, Forward, Rules, Setting};
use fw_verdict::{Place, Side};
use lower_match::matches_of;
use nf_rules::Match;
use std::alloc::Global;

/// A forwarded port that is no rich rule.
fn push_port(
    alloc: Global,
    config: &Config,
    forward: &Forward,
    steps: &mut Seq<Step>,
) -> Result<(), Memory>
    ensures { OnOk result (IsPlainForward forward.now → Tell config.now (port_item config.now forward.now ∷ []) steps.old steps.new) }
{
    let alternatives = matches_of(
        alloc,
        &Setting::Forward(*forward),
        config.services.as_slice(),
        config.ipsets.as_slice(),
    )?;
    push_translation(alternatives, target_of(forward), steps)
}

fn push_ports(
    alloc: Global,
    config: &Config,
    forwards: &[Forward],
    steps: &mut Seq<Step>,
) -> Result<(), Memory>
    ensures { OnOk result (Each IsPlainForward forwards.now → Tell config.now (map (port_item config.now) forwards.now) steps.old steps.new) }
{
    for forward in forwards {
        push_port(alloc, config, forward, steps)?;
    }
    Ok(())
}

/// Masquerade that is no rich rule.
fn push_plain(
    alloc: Global,
    config: &Config,
    masquerade: bool,
    steps: &mut Seq<Step>,
) -> Result<(), Memory>
    ensures { OnOk result (Tell config.now (plain_items config.now masquerade) steps.old steps.new) }
{
    if !masquerade {
        return Ok(());
    }
    let alternatives = matches_of(
        alloc,
        &Setting::Masquerade,
        config.services.as_slice(),
        config.ipsets.as_slice(),
    )?;
    push_masquerade(alternatives, steps)
}

/// What settings translate: rich rules of a priority of 0 and below, the forwarded ports that are no rich rules, and rich rules of a
/// priority above 0.
fn push_translations(
    alloc: Global,
    config: &Config,
    settings: &Rules,
    steps: &mut Seq<Step>,
) -> Result<(), Memory>
    ensures { OnOk result (AreWritten settings.now → Tell config.now (translation_items config.now settings.now) steps.old steps.new) }
{
    let rich = settings.rich.as_slice();
    push_placed(alloc, config, Place::ForwardsBefore, rich, steps)?;
    push_ports(alloc, config, settings.forwards.as_slice(), steps)?;
    push_placed(alloc, config, Place::ForwardsBehind, rich, steps)
}

/// What settings have leave with the host's own address: by rich rules, and then plainly.
fn push_leaving(
    alloc: Global,
    config: &Config,
    settings: &Rules,
    steps: &mut Seq<Step>,
) -> Result<(), Memory>
    ensures { OnOk result (AreWritten settings.now → Tell config.now (leaving_items config.now settings.now) steps.old steps.new) }
{
    push_placed(
        alloc,
        config,
        Place::Masquerades,
        settings.rich.as_slice(),
        steps,
    )?;
    push_plain(alloc, config, settings.masquerade, steps)
}

/// What settings do on a side.
fn push_side(
    alloc: Global,
    config: &Config,
    side: Side,
    settings: &Rules,
    steps: &mut Seq<Step>,
) -> Result<(), Memory>
    ensures { OnOk result (AreWritten settings.now → Tell config.now (side_items config.now side settings.now) steps.old steps.new) }
{
    match side {
        Side::Marked => push_placed(alloc, config, Place::Marks, settings.rich.as_slice(), steps),
        Side::Translated => push_translations(alloc, config, settings, steps),
        Side::Leaving => push_leaving(alloc, config, settings, steps),
    }
}

/// The steps of what settings do on a side.
///
/// Refuses for want of memory alone.
pub fn side_steps(
    alloc: Global,
    config: &Config,
    side: Side,
    settings: &Rules,
) -> Result<Seq<Step>, Memory>
    ensures { IfOk result (λ steps. AreWritten settings.now → AreTold config.now steps (side_items config.now side settings.now)) }
{
    let mut steps = Seq::new(alloc);
    push_side(alloc, config, side, settings, &mut steps)?;
    Ok(steps)
}
