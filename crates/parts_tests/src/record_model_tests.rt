use record_model::{CacheLine, Item, Items, Listing, Octets};
use std::test::Fail;

#[test]
fn octets_come_back(rt: HostRuntime) -> Result<(), Fail> {
    let whole = [7u8; 256];
    let octets = Octets::from_slice(&whole).ok_or("256 octets are refused")?;
    assert!(rt; octets.as_slice() == whole.as_slice());
    assert!(rt; Octets::from_slice(&[7u8; 257]).is_none());
    Ok(())
}

#[test]
fn items_stay_in_order(rt: HostRuntime) -> Result<(), Fail> {
    let mut items = Items::new(rt.alloc());
    assert!(rt; items.len() == 0);
    for number in [2u32, 4] {
        let value = Octets::from_slice(&[0xaa]).ok_or("an octet is refused")?;
        items.push(Item { number, value })?;
    }
    assert!(rt; items.len() == 2);
    assert!(rt; items.at(0).number == 2 && items.at(1).number == 4);
    Ok(())
}

#[test]
fn lines_stay_in_order(rt: HostRuntime) -> Result<(), Fail> {
    let mut listing = Listing::new(rt.alloc());
    for page in [3u32, 9] {
        listing.push(CacheLine::Pool {
            page,
            changed: false,
        })?;
    }
    assert!(rt; listing.len() == 2);
    let last = CacheLine::Pool {
        page: 9,
        changed: false,
    };
    assert!(rt; *listing.at(1) == last);
    Ok(())
}
