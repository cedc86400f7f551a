use record_model::{CacheLine, Command, Item, Items, Listing, Octets, Reply, Stat, Why};
use shell_text::{BadLine, line_count, open_line, read_line, reply_line};
use std::alloc::{AllocError, Global};
use std::test::Fail;

fn text_of(alloc: Global, reply: &Reply) -> Result<Vec<u8>, AllocError> {
    let mut text = Vec::new(alloc);
    for place in 0..line_count(reply) {
        text.extend_from_slice(reply_line(reply, place).as_slice())?;
    }
    Ok(text)
}

fn octets(bytes: &[u8]) -> Result<Octets, &'static str> {
    Octets::from_slice(bytes).ok_or("more than 256 octets")
}

#[test]
fn commands_are_read(rt: HostRuntime) -> Result<(), Fail> {
    assert_eq!(rt; read_line(b"begin 0"), Ok(Command::Begin { session: 0 }));
    assert_eq!(rt;
        read_line(b"get 999999999"),
        Ok(Command::Get {
            number: 999_999_999
        })
    );
    assert_eq!(rt;
        read_line(b"scan 0 500 64"),
        Ok(Command::Scan {
            session: 0,
            number: 500,
            count: 64
        })
    );
    let value = octets(&[0xab, 0xcd])?;
    assert_eq!(rt;
        read_line(b"write 7 31 aBCd"),
        Ok(Command::Write {
            session: 7,
            number: 31,
            value
        })
    );
    let value = octets(&[])?;
    assert_eq!(rt;
        read_line(b"set 4 -"),
        Ok(Command::Set { number: 4, value })
    );
    assert_eq!(rt; read_line(b"mark 7"), Ok(Command::Mark { session: 7 }));
    assert_eq!(rt;
        read_line(b"back 7"),
        Ok(Command::Back {
            session: 7,
            standing: None
        })
    );
    assert_eq!(rt;
        read_line(b"back 7 0"),
        Ok(Command::Back {
            session: 7,
            standing: Some(0)
        })
    );
    assert_eq!(rt; read_line(b"quit"), Ok(Command::Quit));
    Ok(())
}

#[test]
fn other_lines_are_refused(rt: HostRuntime) {
    for line in [
        b"".as_slice(),
        b"get 05",
        b"get  5",
        b"get 5 ",
        b"set 5 0",
        b"set 5 0g",
        b"scan 0 0 0",
        b"scan 0 0 65",
        b"GET 5",
        b"mark",
        b"mark 0 1",
        b"back 0 01",
        b"back 0 0 0",
        [b'0'; 501].as_slice(),
    ] {
        assert_eq!(rt; read_line(line), Err(BadLine));
    }
}

#[test]
fn replies_have_their_lines(rt: HostRuntime) -> Result<(), Fail> {
    assert_eq!(rt; open_line(100).as_slice(), b"open 100\n".as_slice());
    let reply = Reply::Value(octets(&[0x0a, 0x0b])?);
    assert_eq!(rt;
        text_of(rt.alloc(), &reply)?.as_slice(),
        b"value 0a0b\n".as_slice()
    );
    let reply = Reply::Full {
        used: 7,
        owed: 7,
        cap: 15,
    };
    assert_eq!(rt;
        text_of(rt.alloc(), &reply)?.as_slice(),
        b"full 7 7 15\n".as_slice()
    );
    let reply = Reply::Stat(Stat {
        commits: 100,
        used: 3,
        owed: 0,
        cap: 15,
        active: 0,
    });
    assert_eq!(rt;
        text_of(rt.alloc(), &reply)?.as_slice(),
        b"stat commits 100 used 3 owed 0 cap 15 active 0\n".as_slice()
    );
    let reply = Reply::PageFull {
        page: 0,
        need: 4_000,
    };
    assert_eq!(rt;
        text_of(rt.alloc(), &reply)?.as_slice(),
        b"full page 0 4000\n".as_slice()
    );
    assert_eq!(rt;
        text_of(rt.alloc(), &Reply::Back(6))?.as_slice(),
        b"back 6\n".as_slice()
    );
    assert_eq!(rt;
        text_of(rt.alloc(), &Reply::Refused(Why::BadMark))?.as_slice(),
        b"refused mark\n".as_slice()
    );
    let reply = Reply::Refused(Why::TooLong);
    assert_eq!(rt;
        text_of(rt.alloc(), &reply)?.as_slice(),
        b"refused long\n".as_slice()
    );
    Ok(())
}

#[test]
fn lists_have_their_lines(rt: HostRuntime) -> Result<(), Fail> {
    let mut items = Items::new(rt.alloc());
    items.push(Item {
        number: 2,
        value: octets(&[0xaa])?,
    })?;
    items.push(Item {
        number: 4,
        value: octets(&[])?,
    })?;
    let reply = Reply::Items(items);
    assert_eq!(rt;
        text_of(rt.alloc(), &reply)?.as_slice(),
        b"item 2 aa\nitem 4 -\nend 2\n".as_slice()
    );
    let mut listing = Listing::new(rt.alloc());
    listing.push(CacheLine::Frame {
        group: 7,
        index: 1,
        page: 7,
        valid: true,
        dirty: true,
        referenced: false,
    })?;
    listing.push(CacheLine::Pool {
        page: 8,
        changed: true,
    })?;
    let reply = Reply::Listing(listing);
    assert_eq!(rt;
        text_of(rt.alloc(), &reply)?.as_slice(),
        b"frame 7 1 page 7 vd-\npool 8*\nend 2\n".as_slice()
    );
    Ok(())
}

#[test]
fn the_longest_line_has_room(rt: HostRuntime) -> Result<(), Fail> {
    let mut items = Items::new(rt.alloc());
    items.push(Item {
        number: u32::MAX,
        value: octets(&[0xff; 256])?,
    })?;
    let reply = Reply::Items(items);
    assert_eq!(rt; line_count(&reply), 2);
    assert_eq!(rt; reply_line(&reply, 0).as_slice().len(), 529);
    Ok(())
}
