//! All services that are part of a service.
ghost use Rattle.std.specs.Prelude.{◌≡◌, ◌<◌, false, IfOk, Some, length, replicate, slice_get};
ghost use Rattle.fw_closure.specs.Includes.{AreReached};
ghost use Rattle.fw_closure.specs.Marks.{ArePlaces};
ghost use Rattle.fw_model.specs.declared.service.Service.{Service};

use super::walk::mark;
use fw_base::{Memory, Text};
use fw_model::Service;
use std::alloc::Global;

/// The places in a list of the services to which a chain of includes leads from a name, each once, in their order. A chain
/// may have no include, so that the services of that name are among them. Includes may lead round in a circle.
///
/// Refuses for want of memory alone.
pub fn closure(alloc: Global, services: &[Service], name: &str) -> Result<Vec<usize>, Memory>
    ensures { IfOk result (λ places. AreReached services.now name.now places.items) }
{
    let mut reached = no_marks(alloc, services.len())?;
    let mut waiting = Vec::new(alloc);
    let start = [Text::of(alloc, name)?];
    mark(services, &start, &mut reached, &mut waiting)?;
    while let Some(place) = waiting.pop() {
        let includes = includes_of(services, place);
        mark(services, includes, &mut reached, &mut waiting)?;
    }
    places_of(alloc, &reached)
}

/// What the service at a place includes.
fn includes_of(services: &[Service], place: usize) -> &[Text]
    requires { place < length services.now }
    ensures { (service : Service) → slice_get services.now place ≡ Some service → result.now ≡ service.includes }
{
    services[place].includes.as_slice()
}

/// Marks for so many services, of which none is marked.
fn no_marks(alloc: Global, count: usize) -> Result<Vec<bool>, Memory>
    ensures { IfOk result (λ marks. marks.items ≡ replicate count false) }
{
    Ok(vec![in alloc; false; count]?)
}

/// The places of what is marked.
fn places_of(alloc: Global, marks: &[bool]) -> Result<Vec<usize>, Memory>
    ensures { IfOk result (λ places. ArePlaces marks.now places.items) }
{
    let mut places = Vec::new(alloc);
    for place in 0..marks.len() {
        if marks[place] {
            places.push(place)?;
        }
    }
    Ok(places)
}
