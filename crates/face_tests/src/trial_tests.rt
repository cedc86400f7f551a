// Lives with stops. What is expected was worked out by hand or by another program.
use crate::steps::STANDARD;
use face::serve;
use face::trial::trial;
use image_check::{Verdict, check_image};
use mem_site::MemSite;
use std::alloc::Global;
use std::test::Fail;

// Lives over a new site in memory, with the script that this site's input has.
fn play(alloc: Global, site: &mut MemSite) -> Result<(u8, MemSite), Fail> {
    let inner = MemSite::new(alloc, &STANDARD)?;
    Ok(trial(alloc, 1, inner, site))
}

// Whether the lives of a script are told so.
fn tells(alloc: Global, script: &str, told: &str) -> Result<bool, Fail> {
    let mut site = MemSite::new(alloc, &STANDARD)?;
    site.feed(script.as_bytes())?;
    let (status, _inner) = play(alloc, &mut site)?;
    Ok(status == 0 && site.told() == told.as_bytes())
}

const LIVES: [(&'static str, &'static str); 8] = [
    ("", "open 0\nlife 1 status 0\n"),
    (
        "set 0 aa\nbegin 0\nwrite 0 0 bb\nwrite 0 32 cc\nwrite 0 64 dd\nstop 1000 1\nstop 1 1\nstop 2 1\n\
        stop 3 1\nstop 4 1\nstop 5 1\nstop 6 1\nstop 7 1\nstop 8 1\nget 0\nget 32\nget 64\n",
        "open 0\ncommitted 1\nok\nok\nok\nok\nlife 1 status 0\nlife 2 status 3\nlife 3 status 3\nlife 4 status 3\n\
        life 5 status 3\nlife 6 status 3\nlife 7 status 3\nlife 8 status 3\nlife 9 status 3\nopen 1\nvalue aa\n\
        none\nnone\nlife 10 status 0\n",
    ),
    (
        "set 5 0a0b\nstop 11 1\nget 5\n",
        "open 0\nlife 1 status 6\nopen 1\nvalue 0a0b\nlife 2 status 0\n",
    ),
    // A stop while the first segment is saved, and one before.
    (
        "set 0 01\nset 32 02\nset 64 03\nset 96 04\nset 128 05\nset 160 06\nstop 59 2\ncache\n",
        "open 0\ncommitted 1\ncommitted 2\ncommitted 3\ncommitted 4\ncommitted 5\nlife 1 status 3\nopen 5\n\
        frame 0 0 page 0 vdr\nframe 1 0 page 1 vdr\nframe 2 0 page 2 vdr\nframe 3 0 page 3 vdr\n\
        frame 4 0 page 4 vd-\npool 4\nend 6\nlife 2 status 0\n",
    ),
    (
        "set 0 01\nset 32 02\nset 64 03\nset 96 04\nset 128 05\nset 160 06\nstop 56 2\ncache\n",
        "open 0\ncommitted 1\ncommitted 2\ncommitted 3\ncommitted 4\ncommitted 5\nlife 1 status 3\nopen 5\n\
        frame 0 0 page 0 vdr\nframe 1 0 page 1 vdr\nframe 2 0 page 2 vdr\nframe 3 0 page 3 vdr\n\
        frame 4 0 page 4 vd-\npool 4\nend 6\nlife 2 status 0\n",
    ),
    (
        "set 0 aa\nstop 1000 1\nstop 8 1\nget 0\n",
        "open 0\ncommitted 1\nlife 1 status 0\nlife 2 status 3\nopen 1\nvalue aa\nlife 3 status 0\n",
    ),
    // A session that has gone back is left: what it dropped and what it wrote on are undone.
    (
        "begin 0\nwrite 0 0 aa\nmark 0\nwrite 0 0 bb\nback 0\nset 32 01\nwrite 0 0 cc\nset 64 02\nstop 1000 1\n\
        get 0\nget 32\nget 64\n",
        "open 0\nok\nok\nok\nok\nback 1\ncommitted 1\nok\ncommitted 2\nlife 1 status 0\nopen 2\nnone\nvalue 01\n\
        value 02\nlife 2 status 0\n",
    ),
    (
        "set 0 01\nset 32 02\nbegin 0\nwrite 0 0 11\nmark 0\nwrite 0 32 12\nwrite 0 64 13\nback 0\nset 96 04\n\
        stop 1000 0\nget 0\nget 32\nget 64\nget 96\n",
        "open 0\ncommitted 1\ncommitted 2\nok\nok\nok\nok\nok\nback 2\ncommitted 3\nlife 1 status 0\nopen 3\nvalue 01\n\
        value 02\nnone\nvalue 04\nlife 2 status 0\n",
    ),
];

#[test]
fn lives_are_told(rt: HostRuntime) -> Result<(), Fail> {
    for (script, told) in LIVES {
        assert!(rt; tells(rt.alloc(), script, told)?);
    }
    Ok(())
}

// The numbers of changes are handed back, those of the first lives and that of the last.
#[test]
fn changes_are_handed_back(rt: HostRuntime) -> Result<(), Fail> {
    let mut site = MemSite::new(rt.alloc(), &STANDARD)?;
    site.feed(b"set 5 0a0b\nstop 12 1\nstop 3 0\nget 5\n")?;
    let (status, inner) = play(rt.alloc(), &mut site)?;
    assert!(rt; status == 0);
    assert!(rt; inner.lives() == [12, 5].as_slice());
    Ok(())
}

const STOPS: [u64; 9] = [1_000, 1, 2, 3, 4, 5, 6, 7, 8];

// A power cut after each of these numbers of changes, with seed 1, leaves sound devices, and so does what follows
// it.
#[test]
fn power_cuts_leave_sound_devices(rt: HostRuntime) -> Result<(), Fail> {
    let mut site = MemSite::new(rt.alloc(), &STANDARD)?;
    site.feed(b"set 0 aa\nbegin 0\nwrite 0 0 bb\nwrite 0 32 cc\nwrite 0 64 dd\n")?;
    for changes in STOPS {
        site.fuse(changes);
        let _status = serve(rt.alloc(), 1, &mut site);
        site = site.crash(1);
        assert!(rt;
            check_image(rt.alloc(), &mut site)?
                == Verdict::Sound {
                    records: 1,
                    commits: 1
                }
        );
    }
    Ok(())
}
