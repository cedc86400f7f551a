use buffer_pool::{Frame, Pool};
use site::Stop;
use slotted_page::Page;
use std::test::Fail;

// A page that is told from others by its first octet.
fn page_of(octet: u8) -> Page {
    let mut octets = [0; 4096];
    octets[0] = octet;
    Page::from_bytes(&octets)
}

// Puts a page in front, once it is known that there is room for it.
fn put(pool: &mut Pool, page: u32, octet: u8) -> Result<bool, Stop> {
    if pool.is_full() {
        return Ok(false);
    }
    match pool.page(page) {
        Some(_) => Ok(false),
        None => {
            pool.put(page, page_of(octet), true)?;
            Ok(true)
        }
    }
}

// The pages from the front on, and whether they were changed.
fn is_listed(pool: &Pool, marks: &[(u32, bool)]) -> bool {
    if pool.len() != marks.len() {
        return false;
    }
    for place in 0..marks.len() {
        if place >= pool.len() {
            return false;
        }
        if pool.mark(place) != marks[place] {
            return false;
        }
    }
    true
}

// Whether the pages are these, as many as there are, the greatest number in front, and none of them was changed.
fn is_count(pool: &Pool, count: u32) -> bool {
    if pool.len() != count as usize {
        return false;
    }
    for place in 0..pool.len() {
        let (page, changed) = pool.mark(place);
        if changed || page.wrapping_add(place as u32).wrapping_add(1) != count {
            return false;
        }
    }
    true
}

// Clears the mark of a page that is there.
fn clear_changed(pool: &mut Pool, page: u32) {
    if let Some(_) = pool.page(page) {
        pool.clear_changed(page);
    }
}

// Whether this page was taken, unchanged, with its number as its first octet, and with a frame in the queue.
fn is_unchanged(taken: Option<(Frame, bool)>, page: u8) -> bool {
    match taken {
        Some((frame, framed)) => {
            frame.page == u32::from(page)
                && !frame.changed
                && framed
                && frame.content == page_of(page)
        }
        None => false,
    }
}

// A touched page comes to the front, and the one that was touched longest ago goes first.
#[test]
fn the_coldest_page_goes_first(rt: HostRuntime) -> Result<(), Fail> {
    let mut pool = Pool::new(rt.alloc(), 3)?;
    assert!(rt; pool.is_empty());
    assert!(rt; pool.take_coldest().is_none());
    assert!(rt; put(&mut pool, 7, 7)?);
    assert!(rt; put(&mut pool, 4, 4)?);
    assert!(rt; !pool.is_full());
    assert!(rt; put(&mut pool, 9, 9)?);
    assert!(rt; pool.is_full());
    assert!(rt; is_listed(&pool, &[(9, false), (4, false), (7, false)]));
    assert!(rt; pool.touch(7));
    assert!(rt; is_listed(&pool, &[(7, false), (9, false), (4, false)]));
    assert!(rt; pool.touch(9));
    assert!(rt; pool.touch(9));
    assert!(rt; !pool.touch(5));
    assert!(rt; is_listed(&pool, &[(9, false), (7, false), (4, false)]));
    assert!(rt; pool.front() == Some(&page_of(9)));
    assert!(rt; pool.page(4) == Some(&page_of(4)));
    assert!(rt; is_unchanged(pool.take_coldest(), 4));
    assert!(rt; is_listed(&pool, &[(9, false), (7, false)]));
    Ok(())
}

// A page that is changed is in front. It stays marked until it is cleared, and keeps its place then.
#[test]
fn a_change_is_marked_until_it_is_cleared(rt: HostRuntime) -> Result<(), Fail> {
    let mut pool = Pool::new(rt.alloc(), 4096)?;
    assert!(rt; put(&mut pool, 0, 0)?);
    assert!(rt; put(&mut pool, 1, 1)?);
    assert!(rt; pool.touch(0));
    let mut changed = page_of(0);
    assert!(rt; changed.sound());
    assert!(rt; changed.fits(5, Some(&[0x0a, 0x0b])));
    changed.set(5, Some(&[0x0a, 0x0b]), 3);
    assert!(rt; change(&mut pool));
    assert!(rt; is_listed(&pool, &[(0, true), (1, false)]));
    assert!(rt; pool.front() == Some(&changed));
    assert!(rt; pool.touch(1));
    assert!(rt; is_listed(&pool, &[(1, false), (0, true)]));
    clear_changed(&mut pool, 0);
    assert!(rt; is_listed(&pool, &[(1, false), (0, false)]));
    assert!(rt; pool.take_page(0) == Some((false, changed)));
    assert!(rt; pool.take_page(0).is_none());
    assert!(rt; is_listed(&pool, &[(1, false)]));
    Ok(())
}

// Gives slot 5 of the page in front the value 0a0b and the page the LSN 3, once it is known that it may have them.
fn change(pool: &mut Pool) -> bool {
    let Some(page) = pool.front() else {
        return false;
    };
    if !page.sound() {
        return false;
    }
    if !page.fits(5, Some(&[0x0a, 0x0b])) {
        return false;
    }
    pool.change_front(5, Some(&[0x0a, 0x0b]), 3);
    true
}

// The marks from the front on, and the changed pages from the cold end on, so many at most.
#[test]
fn changed_pages_are_listed_from_the_cold_end(rt: HostRuntime) -> Result<(), Fail> {
    let mut pool = Pool::new(rt.alloc(), 4)?;
    for page in 0..4 {
        assert!(rt; put(&mut pool, page, 0)?);
        if page != 1 {
            assert!(rt; change(&mut pool));
        }
    }
    assert_eq!(rt;
        pool.marks(rt.alloc())?.as_slice(),
        [(3u32, true), (2, true), (1, false), (0, true)].as_slice()
    );
    assert_eq!(rt;
        pool.coldest_changed(rt.alloc(), 2)?.as_slice(),
        [0u32, 2].as_slice()
    );
    assert_eq!(rt;
        pool.coldest_changed(rt.alloc(), 8)?.as_slice(),
        [0u32, 2, 3].as_slice()
    );
    Ok(())
}

// Where memory is refused to a put the pool stays as it was, and the next put is made. `checks/refused_memory.sh`
// refuses each allocation in turn, and counts on the line that tells of it.
#[test]
fn a_refused_put_leaves_the_pool_as_it_was(rt: HostRuntime) -> Result<(), Fail> {
    let Ok(mut pool) = Pool::new(rt.alloc(), 12) else {
        println!(rt; "memory was refused")?;
        return Ok(());
    };
    for page in 0..12 {
        if put(&mut pool, page, 0).is_err() {
            println!(rt; "memory was refused")?;
            assert!(rt; is_count(&pool, page));
            assert!(rt; put(&mut pool, page, 0)?);
        }
        assert!(rt; is_count(&pool, page + 1));
    }
    Ok(())
}

// Pages that are unchanged and have a frame in the queue may not be taken: they aren't listed. A page comes to the list
// where it is changed, or has no frame any more, by its last touch: the one that was touched longest ago in front.
#[test]
fn movable_pages_are_listed_by_their_last_touch(rt: HostRuntime) -> Result<(), Fail> {
    let mut pool = Pool::new(rt.alloc(), 4)?;
    assert!(rt; put(&mut pool, 0, 0)?);
    assert!(rt; put(&mut pool, 1, 0)?);
    assert!(rt; put(&mut pool, 2, 0)?);
    assert!(rt; change(&mut pool));
    assert!(rt; put(&mut pool, 3, 0)?);
    pool.set_framed(0, false);
    pool.set_framed(9, false);
    assert!(rt; pool.touch(1));
    assert_eq!(rt;
        pool.coldest_movable(rt.alloc(), 4)?.as_slice(),
        [(0u32, false), (2, true)].as_slice()
    );
    assert_eq!(rt;
        pool.coldest_movable(rt.alloc(), 1)?.as_slice(),
        [(0u32, false)].as_slice()
    );
    assert!(rt; pool.touch(0));
    assert!(rt; change(&mut pool));
    clear_changed(&mut pool, 2);
    pool.set_framed(1, false);
    assert_eq!(rt;
        pool.coldest_movable(rt.alloc(), 4)?.as_slice(),
        [(1u32, false), (0, true)].as_slice()
    );
    pool.set_framed(1, true);
    assert!(rt; pool.take_page(0).is_some());
    assert!(rt; pool.coldest_movable(rt.alloc(), 4)?.is_empty());
    Ok(())
}
