//! The links of a packet and of its routes.
ghost use Rattle.std.specs.Prelude.{◌≡◌, None, Some, is_none, IsTrue, IfOk, MatchResult};
ghost use Rattle.fw_addr.specs.Interfaces.{before_plus};
ghost use Rattle.fw_words.specs.Reading.{Says};
ghost use Rattle.fw_packet.specs.Links.{link_name, via};

use fw_addr::read_iface;
use fw_base::Text;
use fw_model::Via;
use fw_words::LineError;
use std::alloc::Global;

/// The name of an interface, without a `+`.
pub fn read_link(text: &str) -> Result<&str, LineError>
    ensures plain { IfOk result (λ name. IsTrue (is_none (before_plus name.now))) }
    ensures says { MatchResult result (λ name. link_name text.now ≡ Some name.now) (λ error. (error ≡ LineError.BadLine) × (link_name text.now ≡ None)) }
{
    match read_iface(text) {
        Ok(_) if !text.ends_with('+') => Ok(text),
        _ => Err(LineError::BadLine),
    }
}

/// Where a route leads: `local`, which is the host itself, or a link by its name.
pub fn read_via(alloc: Global, text: &str) -> Result<Via, LineError>
    ensures { Says result (via text.now) }
{
    if text == "local" {
        return Ok(Via::Local);
    }
    let name = read_link(text)?;
    Ok(Via::Link(Text::of(alloc, name)?))
}
