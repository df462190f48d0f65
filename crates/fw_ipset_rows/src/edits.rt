//! Edits of sets, one after another.
use super::sets::empty;
use fw_addr::{Addr, Family, Mac, Net};
use fw_ipset::{SetError, add_item, has_item, remove_item, replace_items};
use fw_model::{Item, SetKind};
use std::test::Fail;

const MAC: Item = Item::Mac(Mac(5));

fn ten() -> Item {
    Item::Net(Net::new(Addr::V4(0x0a00_0000), 8))
}

fn eleven() -> Item {
    Item::Net(Net::new(Addr::V4(0x0b00_0000), 8))
}

/// The same numbers in the other family.
fn ten_in_ipv6() -> Item {
    Item::Net(Net::new(Addr::V6(0x0a00_0000), 128))
}

#[test]
fn items_are_added_and_removed(rt: HostRuntime) -> Result<(), Fail> {
    let mut set = empty(rt.alloc(), SetKind::Net, Family::V4)?;
    assert_eq!(rt; remove_item(&mut set, &ten()), Err(SetError::NotEnabled));
    assert_eq!(rt; add_item(&mut set, ten()), Ok(()));
    assert_eq!(rt; add_item(&mut set, ten()), Err(SetError::AlreadyEnabled));
    assert_eq!(rt; add_item(&mut set, eleven()), Ok(()));
    assert!(rt; has_item(&set, &ten()) && has_item(&set, &eleven()) && !has_item(&set, &MAC));
    assert!(rt; set.items.as_slice() == [ten(), eleven()].as_slice());
    assert_eq!(rt; remove_item(&mut set, &ten()), Ok(()));
    assert!(rt; set.items.as_slice() == [eleven()].as_slice());
    Ok(())
}

#[test]
fn repeated_items_are_kept_once(rt: HostRuntime) -> Result<(), Fail> {
    let alloc = rt.alloc();
    let mut set = empty(alloc, SetKind::Net, Family::V4)?;
    assert_eq!(rt; add_item(&mut set, MAC), Ok(()));
    let items = vec![in alloc; eleven(), ten_in_ipv6(), ten(), eleven(), ten(), MAC]?;
    assert_eq!(rt; replace_items(alloc, &mut set, items), Ok(()));
    assert!(rt; set.items.as_slice() == [eleven(), ten_in_ipv6(), ten(), MAC].as_slice());
    Ok(())
}

#[test]
fn a_set_with_a_timeout_takes_nothing(rt: HostRuntime) -> Result<(), Fail> {
    let alloc = rt.alloc();
    let mut set = empty(alloc, SetKind::Ip, Family::V4)?;
    set.timeout = true;
    assert_eq!(rt; add_item(&mut set, ten()), Err(SetError::IpsetWithTimeout));
    assert_eq!(rt;
        remove_item(&mut set, &ten()),
        Err(SetError::IpsetWithTimeout)
    );
    let items = vec![in alloc; ten()]?;
    assert_eq!(rt;
        replace_items(alloc, &mut set, items),
        Err(SetError::IpsetWithTimeout)
    );
    assert_eq!(rt; set.items.as_slice().len(), 0);
    Ok(())
}
