//! What is an entry of which set.
use super::sets::empty;
use fw_addr::{Family, print_mac, print_net};
use fw_base::Text;
use fw_ipset::{SetError, read_item};
use fw_model::{IpSet, Item, SetKind};
use std::alloc::Global;
use std::test::Fail;

fn canonical(alloc: Global, set: &IpSet, text: &str) -> Option<Text> {
    match read_item(set, text).ok()? {
        Item::Net(net) => print_net(alloc, &net).ok(),
        Item::Mac(mac) => print_mac(alloc, &mac).ok(),
    }
}

/// Whether a text was read and printed as wanted; `-` stands for a refusal.
fn is(found: Option<Text>, want: &str) -> bool {
    match found {
        Some(text) => text.as_str() == want,
        None => want == "-",
    }
}

#[test]
fn each_kind_and_family(rt: HostRuntime) -> Result<(), Fail> {
    let alloc = rt.alloc();
    for (kind, family, rows) in [
        (
            SetKind::Ip,
            Family::V4,
            "10.0.0.1 10.0.0.1
10.0.0.1/32 10.0.0.1
10.0.0.1/255.255.255.255 10.0.0.1
10.0.0.1/31 -
10.0.0.0/8 -
::1 -
00:11:22:33:44:55 -
ten -",
        ),
        (
            SetKind::Ip,
            Family::V6,
            "2001:DB8::1 2001:db8::1
::1/128 ::1
::1/127 -
10.0.0.1 -",
        ),
        (
            SetKind::Net,
            Family::V4,
            "10.1.2.3/8 10.0.0.0/8
10.0.0.1 10.0.0.1
0.0.0.0/0 0.0.0.0/0
fe80::/64 -
00:11:22:33:44:55 -",
        ),
        (
            SetKind::Net,
            Family::V6,
            "fe80::1/64 fe80::/64
10.0.0.0/8 -",
        ),
        (
            SetKind::Mac,
            Family::V4,
            "00:11:22:AA:bb:cc 00:11:22:aa:bb:cc
00:11:22:33:44 -
10.0.0.1 -",
        ),
    ] {
        let set = empty(alloc, kind, family)?;
        for row in rows.lines() {
            if let Some((text, want)) = row.split_once(' ') {
                assert!(rt; is(canonical(alloc, &set, text), want), "{row}");
            }
        }
    }
    Ok(())
}

#[test]
fn refusals(rt: HostRuntime) -> Result<(), Fail> {
    let mut set = empty(rt.alloc(), SetKind::Net, Family::V4)?;
    assert_eq!(rt; read_item(&set, "ten"), Err(SetError::InvalidEntry));
    set.timeout = true;
    assert_eq!(rt; read_item(&set, "ten"), Err(SetError::IpsetWithTimeout));
    assert_eq!(rt;
        read_item(&set, "10.0.0.0/8"),
        Err(SetError::IpsetWithTimeout)
    );
    Ok(())
}
