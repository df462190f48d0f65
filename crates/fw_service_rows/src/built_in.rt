//! The built-in configuration.
use fw_base::TryCopy;
use fw_closure::closure;
use fw_service::{built_in_config, built_in_services, knows};
use std::test::Fail;

#[test]
fn a_web_site_is_http_and_https(rt: HostRuntime) -> Result<(), Fail> {
    let alloc = rt.alloc();
    let services = built_in_services(alloc)?;
    let places = closure(alloc, services.as_slice(), "web-site")?;
    assert!(rt; places.as_slice() == [3, 4, 11].as_slice());
    assert!(rt; knows(services.as_slice(), "web-site"));
    assert!(rt; !knows(services.as_slice(), "nosuch") && !knows(services.as_slice(), "web"));
    Ok(())
}

#[test]
fn all_is_there(rt: HostRuntime) -> Result<(), Fail> {
    let config = built_in_config(rt.alloc())?.copy(rt.alloc())?;
    assert_eq!(rt; config.default_zone.as_str(), "public");
    assert_eq!(rt; config.zones.as_slice().len(), 9);
    assert_eq!(rt; config.services.as_slice().len(), 12);
    assert_eq!(rt;
        config.zones.as_slice()[6].rules.services.as_slice().len(),
        2
    );
    Ok(())
}
