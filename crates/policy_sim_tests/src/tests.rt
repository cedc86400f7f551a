ghost use Rattle.std.specs.Prelude.{◌≤◌, length};

use policy_sim::{Counts, Policy, Sim};
use site::Stop;
use std::alloc::Global;
use std::test::Fail;

// The counts of a machine on eight groups, with a pool of one page, after all of these touches.
fn counts_of(alloc: Global, kind: Policy, touches: &[(u32, bool)]) -> Result<Counts, Stop>
    requires { length touches.now ≤ 1000 }
{
    let mut sim = Sim::new(alloc, kind, 8, 1)?;
    for (page, change) in touches {
        sim.touch(*page, *change)?;
    }
    Ok(sim.counts())
}

fn counts(touches: u64, pool: u64, flash: u64, disk: u64, staged: u64, pushed: u64) -> Counts {
    Counts {
        touches,
        pool,
        flash,
        disk,
        staged,
        pushed,
    }
}

// Page 0 is read from flash, and its group leaves with the eighth push.
#[test]
fn a_page_that_was_read_is_staged_without_second_chances(rt: HostRuntime) -> Result<(), Fail> {
    let touches = [
        (0, true),
        (1, true),
        (0, false),
        (2, true),
        (3, true),
        (4, true),
        (5, true),
        (6, true),
        (7, true),
        (8, true),
    ];
    let fifo = counts_of(rt.alloc(), Policy::Fifo, &touches)?;
    assert!(rt; fifo == counts(10, 0, 1, 9, 0, 8));
    let group = counts_of(rt.alloc(), Policy::Group, &touches)?;
    assert!(rt; group == counts(10, 0, 1, 9, 1, 8));
    let chance = counts_of(rt.alloc(), Policy::Chance, &touches)?;
    assert!(rt; chance == counts(10, 0, 1, 9, 0, 8));
    Ok(())
}

// A page that is read again is in the pool.
#[test]
fn a_page_that_is_read_again_is_in_the_pool(rt: HostRuntime) -> Result<(), Fail> {
    let touches = [(0, false), (0, false)];
    let fifo = counts_of(rt.alloc(), Policy::Fifo, &touches)?;
    assert!(rt; fifo == counts(2, 1, 0, 1, 0, 0));
    let chance = counts_of(rt.alloc(), Policy::Chance, &touches)?;
    assert!(rt; chance == counts(2, 1, 0, 1, 0, 0));
    Ok(())
}

// The next number of a sequence that looks random.
fn next_drawn(last: u64) -> u64 {
    last.wrapping_mul(6364136223846793005)
        .wrapping_add(1442695040888963407)
}

// The counts of a machine after so many touches of pages that look random, of which a quarter are changes.
fn drawn_counts(
    alloc: Global,
    kind: Policy,
    groups: u32,
    pool: u32,
    pages: u32,
    touches: u32,
) -> Result<Counts, Stop>
    requires groups_least { 8 ≤ groups }
    requires groups_most { groups ≤ 16384 }
    requires pool_least { 1 ≤ pool }
    requires pool_most { pool ≤ 4096 }
    requires pages { 1 ≤ pages }
    requires few { touches ≤ 10000 }
{
    let mut sim = Sim::new(alloc, kind, groups, pool)?;
    let mut drawn = u64::from(touches);
    for _ in 0..touches {
        drawn = next_drawn(drawn);
        let page = (drawn >> 33) as u32 % pages;
        sim.touch(page, (drawn >> 32) % 4 == 0)?;
    }
    Ok(sim.counts())
}

// What a separate program counted over the same touches, by the policies.

#[test]
fn fifo_counts_what_another_program_counts(rt: HostRuntime) -> Result<(), Fail> {
    let small = drawn_counts(rt.alloc(), Policy::Fifo, 8, 4, 100, 2000)?;
    assert!(rt; small == counts(2000, 76, 940, 984, 319, 1268));
    let full = drawn_counts(rt.alloc(), Policy::Fifo, 12, 16, 64, 3000)?;
    assert!(rt; full == counts(3000, 755, 1909, 336, 81, 981));
    let wide = drawn_counts(rt.alloc(), Policy::Fifo, 64, 32, 1000, 5000)?;
    assert!(rt; wide == counts(5000, 141, 2139, 2720, 700, 3345));
    Ok(())
}

#[test]
fn group_counts_what_another_program_counts(rt: HostRuntime) -> Result<(), Fail> {
    let small = drawn_counts(rt.alloc(), Policy::Group, 8, 4, 100, 2000)?;
    assert!(rt; small == counts(2000, 54, 424, 1522, 436, 478));
    let full = drawn_counts(rt.alloc(), Policy::Group, 12, 16, 64, 3000)?;
    assert!(rt; full == counts(3000, 663, 1821, 516, 199, 192));
    let wide = drawn_counts(rt.alloc(), Policy::Group, 64, 32, 1000, 5000)?;
    assert!(rt; wide == counts(5000, 126, 2133, 2741, 705, 420));
    Ok(())
}

#[test]
fn chance_counts_what_another_program_counts(rt: HostRuntime) -> Result<(), Fail> {
    let small = drawn_counts(rt.alloc(), Policy::Chance, 8, 4, 100, 2000)?;
    assert!(rt; small == counts(2000, 60, 495, 1445, 418, 460));
    let full = drawn_counts(rt.alloc(), Policy::Chance, 12, 16, 64, 3000)?;
    assert!(rt; full == counts(3000, 708, 2140, 152, 51, 191));
    let wide = drawn_counts(rt.alloc(), Policy::Chance, 64, 32, 1000, 5000)?;
    assert!(rt; wide == counts(5000, 129, 2170, 2701, 747, 556));
    Ok(())
}
