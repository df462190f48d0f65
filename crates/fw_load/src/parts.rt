//! What objects of zones and of policies have in common.
ghost use Rattle.std.specs.Prelude.{◌≡◌};
ghost use Rattle.fw_load.specs.Answers.{Says};
ghost use Rattle.fw_load.specs.Objects.{listed, notes, rules_of, translated};
ghost use Rattle.serde_json.specs.View.{view};

use crate::fields::field;
use crate::stop::Stop;
use fw_addr::Proto;
use fw_base::{Seq, Text};
use fw_model::{Forward, Notes, Port, Rich, Rules};
use serde_json::Value;
use std::alloc::Global;

/// What an administrator notes.
#[tactic(auto, unfolding(crate::specs::Objects::notes, crate::specs::Fields::field))]
pub fn read_notes(alloc: Global, value: &Value) -> Result<Notes, Stop>
    ensures { Says result (notes (view value.now)) }
{
    let version = field(alloc, "version", value)?;
    let short = field(alloc, "short", value)?;
    let description = field(alloc, "description", value)?;
    Ok(Notes {
        version,
        short,
        description,
    })
}

/// What is let in and blocked by plain settings.
#[derive(Drop)]
pub struct Listed {
    pub services: Seq<Text>,
    pub ports: Seq<Port>,
    pub protocols: Seq<Proto>,
    pub source_ports: Seq<Port>,
    pub icmp_blocks: Seq<Text>,
}

/// What is let in and blocked by plain settings.
#[tactic(auto, unfolding(crate::specs::Objects::listed, crate::specs::Fields::field))]
pub fn read_listed(alloc: Global, value: &Value) -> Result<Listed, Stop>
    ensures { Says result (listed (view value.now)) }
{
    let services = field(alloc, "services", value)?;
    let ports = field(alloc, "ports", value)?;
    let protocols = field(alloc, "protocols", value)?;
    let source_ports = field(alloc, "source_ports", value)?;
    let icmp_blocks = field(alloc, "icmp_blocks", value)?;
    Ok(Listed {
        services,
        ports,
        protocols,
        source_ports,
        icmp_blocks,
    })
}

/// What is translated, and rich rules.
#[derive(Drop)]
pub struct Translated {
    pub masquerade: bool,
    pub forwards: Seq<Forward>,
    pub rich: Seq<Rich>,
}

/// What is translated, and rich rules under their key.
#[tactic(auto, unfolding(crate::specs::Objects::translated))]
pub fn read_translated(alloc: Global, rich_key: &str, value: &Value) -> Result<Translated, Stop>
    ensures { Says result (translated rich_key.now (view value.now)) }
{
    let masquerade = field(alloc, "masquerade", value)?;
    let forwards = field(alloc, "forward_ports", value)?;
    let rich = field(alloc, rich_key, value)?;
    Ok(Translated {
        masquerade,
        forwards,
        rich,
    })
}

/// These two together.
pub fn rules_of(listed: Listed, translated: Translated) -> Rules
    ensures { result ≡ rules_of listed translated }
{
    Rules {
        services: listed.services,
        ports: listed.ports,
        protocols: listed.protocols,
        source_ports: listed.source_ports,
        icmp_blocks: listed.icmp_blocks,
        masquerade: translated.masquerade,
        forwards: translated.forwards,
        rich: translated.rich,
    }
}
