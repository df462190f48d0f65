//! Lists of texts that replies carry.
ghost use Rattle.std.specs.Prelude.{◌≡◌, map, IfOk};
ghost use Rattle.fw_zone_calls.specs.Entries.{source_text};

use super::entry::source_text;
use fw_addr::Iface;
use fw_base::{Memory, Seq, Text};
use fw_model::{Binding, Service, Zone};
use std::alloc::Global;

/// The names of zones.
pub fn zone_names(alloc: Global, zones: &[Zone]) -> Result<Seq<Text>, Memory>
    ensures { IfOk result (λ names. names ≡ map (λ zone. zone.name) zones.now) }
{
    let mut names = Seq::new(alloc);
    for zone in zones {
        names.push(Text::of(alloc, zone.name.as_str())?)?;
    }
    Ok(names)
}

/// The names of services.
pub fn service_names(alloc: Global, services: &[Service]) -> Result<Seq<Text>, Memory>
    ensures { IfOk result (λ names. names ≡ map (λ service. service.name) services.now) }
{
    let mut names = Seq::new(alloc);
    for service in services {
        names.push(Text::of(alloc, service.name.as_str())?)?;
    }
    Ok(names)
}

pub fn interface_texts(alloc: Global, interfaces: &[Iface]) -> Result<Seq<Text>, Memory>
    ensures { IfOk result (λ texts. texts ≡ interfaces.now) }
{
    let mut texts = Seq::new(alloc);
    for iface in interfaces {
        texts.push(Text::of(alloc, iface.as_str())?)?;
    }
    Ok(texts)
}

pub fn source_texts(alloc: Global, sources: &[Binding]) -> Result<Seq<Text>, Memory>
    ensures { IfOk result (λ texts. texts ≡ map source_text sources.now) }
{
    let mut texts = Seq::new(alloc);
    for source in sources {
        texts.push(source_text(alloc, source)?)?;
    }
    Ok(texts)
}
