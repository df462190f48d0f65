//! The lines of replies.
ghost use Rattle.std.specs.Prelude.{◌≡◌, ◌++◌, IfOk, OnOk, codes, string_bytes};
ghost use Rattle.fw_event_told.specs.Lines.{refusal_text, reply_line, reply_text};
ghost use Rattle.fw_model.specs.Codes.{code_name};

use super::dicts::{push_actives, push_policy_dict, push_zone_dict};
use super::lines::push_error;
use super::values::{push_flag, push_text, push_texts};
use fw_base::{Memory, Text};
use fw_calls::Reply;
use fw_dicts::{policy_dict, zone_dict};
use fw_model::Code;
use std::alloc::Global;

/// Appends the line of a reply.
///
/// Refuses for want of memory alone.
#[tactic(auto, unfolding(crate::specs::Lines::reply_line))]
pub fn push_reply(alloc: Global, out: &mut String, client: u16, reply: &Reply) -> Result<(), Memory>
    ensures { OnOk result (string_bytes out.new ≡ string_bytes out.old ++ reply_line client reply.now) }
{
    write!(out, "reply {client} ")?;
    push_reply_text(alloc, out, reply)?;
    out.push('\n')?;
    Ok(())
}

#[tactic(auto, unfolding(crate::specs::Lines::reply_text))]
fn push_reply_text(alloc: Global, out: &mut String, reply: &Reply) -> Result<(), Memory>
    ensures { OnOk result (string_bytes out.new ≡ string_bytes out.old ++ reply_text reply.now) }
{
    match reply {
        Reply::None | Reply::Opened | Reply::Event(_) | Reply::Shut => {
            out.push_str("ok")?;
            Ok(())
        }
        Reply::Bool(flag) => {
            out.push_str("ok ")?;
            push_flag(out, *flag)
        }
        Reply::Text(text) | Reply::Path(text) => {
            out.push_str("ok ")?;
            push_text(out, text.as_str())
        }
        Reply::Texts(texts) => {
            out.push_str("ok ")?;
            push_texts(out, texts.as_slice())
        }
        Reply::ActiveZones(zones) => {
            out.push_str("ok ")?;
            push_actives(out, "interfaces", "sources", zones.as_slice())
        }
        Reply::ActivePolicies(policies) => {
            out.push_str("ok ")?;
            push_actives(out, "ingress_zones", "egress_zones", policies.as_slice())
        }
        Reply::ZoneSettings(zone) => {
            out.push_str("ok ")?;
            push_zone_dict(out, &zone_dict(alloc, zone)?)
        }
        Reply::PolicySettings(policy) => {
            out.push_str("ok ")?;
            push_policy_dict(out, &policy_dict(alloc, policy)?)
        }
        Reply::Refused(refusal) => {
            push_refusal(alloc, out, refusal.code, refusal.subject.as_str())
        }
        Reply::SaveFailed => push_error(
            out,
            "org.freedesktop.DBus.Error.IOError",
            "permanent settings not saved",
        ),
        Reply::CommitFailed => {
            push_refusal(alloc, out, Code::CommandFailed, "transaction refused")
        }
    }
}

/// A refusal's code, and what it refuses.
#[tactic(auto, unfolding(crate::specs::Lines::refusal_text))]
fn push_refusal(alloc: Global, out: &mut String, code: Code, subject: &str) -> Result<(), Memory>
    ensures { OnOk result (string_bytes out.new ≡ string_bytes out.old ++ refusal_text code subject.now) }
{
    let reason = reason(alloc, code, subject)?;
    push_error(
        out,
        "org.fedoraproject.FirewallD1.Exception",
        reason.as_str(),
    )
}

fn reason(alloc: Global, code: Code, subject: &str) -> Result<Text, Memory>
    ensures { IfOk result (λ text. text ≡ code_name code ++ codes ": " ++ subject.now) }
{
    let code = code.name();
    Ok(Text::from_string(format!(in alloc; "{code}: {subject}")?))
}
