//! Includes in a circle, in a chain, and of services that aren't there.
use fw_base::{Memory, Seq, Text};
use fw_closure::closure;
use fw_model::Service;
use std::alloc::Global;
use std::test::Fail;

/// Services, each with the one that it includes.
const INCLUDES: &str = "itself itself
six itself
five six
four five
three four
two three
one two
there back
back there
lost nosuch";

/// Names, each with how many services are reached from it.
const REACHED: [(&str, usize); 7] = [
    ("itself", 1),
    ("one", 7),
    ("three", 5),
    ("there", 2),
    ("back", 2),
    ("lost", 1),
    ("nosuch", 0),
];

fn including(alloc: Global, name: &str, other: &str) -> Result<Service, Memory> {
    let mut includes = Seq::new(alloc);
    includes.push(Text::of(alloc, other)?)?;
    Ok(Service {
        name: Text::of(alloc, name)?,
        includes,
        ports: Seq::new(alloc),
        protocols: Seq::new(alloc),
        source_ports: Seq::new(alloc),
        v4: None,
        v6: None,
    })
}

fn services(alloc: Global) -> Result<Seq<Service>, Memory> {
    let mut services = Seq::new(alloc);
    for row in INCLUDES.lines() {
        if let Some((name, other)) = row.split_once(' ') {
            services.push(including(alloc, name, other)?)?;
        }
    }
    Ok(services)
}

#[test]
fn chains_and_circles(rt: HostRuntime) -> Result<(), Fail> {
    let alloc = rt.alloc();
    let services = services(alloc)?;
    for (name, want) in REACHED {
        let places = closure(alloc, services.as_slice(), name)?;
        assert_eq!(rt; places.len(), want, "{name}");
    }
    let places = closure(alloc, services.as_slice(), "there")?;
    assert!(rt; places.as_slice() == [7, 8].as_slice());
    Ok(())
}
