//! The lines of signals, ticks and links, and of calls whose arguments aren't of their types.
ghost use Rattle.std.specs.Prelude.{◌≡◌, ◌∷◌, ◌++◌, OnOk, string_bytes};
ghost use Rattle.fw_event_told.specs.Lines.{applied_text, arg_text, args_text, error_text, invalid_args_text, link_line, link_word, signal_line, tick_line, unfit_line};

use super::dicts::{push_policy_dict, push_zone_dict};
use super::values::push_text;
use fw_addr::Iface;
use fw_base::Memory;
use fw_calls::{Applied, Arg, Letters, Signal};
use fw_dicts::{policy_dict, zone_dict};
use fw_quote::push_quoted;
use std::alloc::Global;

/// Appends the line that tells a client of a signal.
///
/// Refuses for want of memory alone.
#[tactic(auto, unfolding(crate::specs::Lines::signal_line))]
pub fn push_signal(
    alloc: Global,
    out: &mut String,
    client: u16,
    signal: &Signal,
) -> Result<(), Memory>
    ensures { OnOk result (string_bytes out.new ≡ string_bytes out.old ++ signal_line client signal.now) }
{
    let interface = signal.kind.interface().script_name();
    let name = signal.kind.name();
    write!(out, "signal {client} {interface}.{name}")?;
    push_args(alloc, out, signal.args.as_slice())?;
    out.push('\n')?;
    Ok(())
}

/// Appends what a signal carries, each behind a blank.
fn push_args(alloc: Global, out: &mut String, args: &[Arg]) -> Result<(), Memory>
    ensures { OnOk result (string_bytes out.new ≡ string_bytes out.old ++ args_text args.now) }
{
    for arg in args {
        out.push(' ')?;
        push_arg(alloc, out, arg)?;
    }
    Ok(())
}

#[tactic(auto, unfolding(crate::specs::Lines::arg_text))]
fn push_arg(alloc: Global, out: &mut String, arg: &Arg) -> Result<(), Memory>
    ensures { OnOk result (string_bytes out.new ≡ string_bytes out.old ++ arg_text arg.now) }
{
    match arg {
        Arg::Text(text) => push_text(out, text.as_str()),
        Arg::Int(number) => {
            write!(out, "{number}")?;
            Ok(())
        }
        Arg::Zone(zone) => push_zone_dict(out, &zone_dict(alloc, zone)?),
        Arg::Policy(policy) => push_policy_dict(out, &policy_dict(alloc, policy)?),
    }
}

/// An error, by its name and what it says.
#[tactic(auto, unfolding(crate::specs::Lines::error_text))]
pub fn push_error(out: &mut String, name: &str, reason: &str) -> Result<(), Memory>
    ensures { OnOk result (string_bytes out.new ≡ string_bytes out.old ++ error_text name.now reason.now) }
{
    write!(out, "error {name} ")?;
    push_quoted(out, reason)?;
    Ok(())
}

/// Appends the line of a call whose arguments aren't of the member's types.
///
/// Refuses for want of memory alone.
#[tactic(auto, unfolding(crate::specs::Lines::unfit_line))]
pub fn push_unfit(out: &mut String, client: u16, letters: &Letters) -> Result<(), Memory>
    ensures { OnOk result (string_bytes out.new ≡ string_bytes out.old ++ unfit_line client letters.now) }
{
    write!(out, "reply {client} ")?;
    push_invalid_args(out, letters.as_str())?;
    out.push('\n')?;
    Ok(())
}

/// An error, since arguments aren't of these types.
#[tactic(auto, unfolding(crate::specs::Lines::invalid_args_text))]
fn push_invalid_args(out: &mut String, letters: &str) -> Result<(), Memory>
    ensures { OnOk result (string_bytes out.new ≡ string_bytes out.old ++ invalid_args_text letters.now) }
{
    push_error(out, "org.freedesktop.DBus.Error.InvalidArgs", letters)
}

/// Appends the line of a tick, and what became of it.
///
/// Refuses for want of memory alone.
#[tactic(auto, unfolding(crate::specs::Lines::tick_line))]
pub fn push_tick(out: &mut String, now: u64, applied: Applied) -> Result<(), Memory>
    ensures { OnOk result (string_bytes out.new ≡ string_bytes out.old ++ tick_line now applied) }
{
    let became = applied_text(applied);
    write!(out, "tick {now} {became}\n")?;
    Ok(())
}

/// Appends the line of a link, and what became of it.
///
/// Refuses for want of memory alone.
#[tactic(auto, unfolding(crate::specs::Lines::link_line))]
pub fn push_link(out: &mut String, up: bool, name: &Iface, applied: Applied) -> Result<(), Memory>
    ensures { OnOk result (string_bytes out.new ≡ string_bytes out.old ++ link_line up name.now applied) }
{
    let word = if up { "up " } else { "gone " };
    let name = name.as_str();
    let became = applied_text(applied);
    write!(out, "link {word}{name} {became}\n")?;
    Ok(())
}

#[tactic(auto, unfolding(crate::specs::Lines::applied_text))]
fn applied_text(applied: Applied) -> &'static str
    ensures { result.now ≡ applied_text applied }
{
    match applied {
        Applied::Skipped => "skipped",
        Applied::Done => "done",
        Applied::Failed => "failed",
    }
}
