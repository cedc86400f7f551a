use byte_fields::Mark;
use second_chance::{
    Places, Plan, PoolMark, PushPolicy, plan_evict, plan_evict_taking, plan_flush,
    plan_flush_taking,
};

// A frame's mark: its page, and whether it is valid, dirty and referenced.
macro_rules! frame {
    ($page:literal, $valid:literal, $dirty:literal, $referenced:literal) => {
        Mark {
            page: $page,
            valid: $valid,
            dirty: $dirty,
            referenced: $referenced,
        }
    };
}

// A page of the pool, and whether it is changed and has a frame.
macro_rules! pooled {
    ($page:literal, $changed:literal, $framed:literal) => {
        PoolMark {
            page: $page,
            changed: $changed,
            framed: $framed,
        }
    };
}

// A push that is planned.
#[derive(Clone, Copy)]
enum Push {
    Evict,
    Flush,
    EvictTaking(PushPolicy),
    FlushTaking(PushPolicy),
}

// A push with a front group and a pool, and what it takes: second chances, staged frames and pulled pages. Where that
// isn't known it isn't looked at.
#[derive(Clone, Copy)]
struct Row {
    push: Push,
    front: Option<&'static [Mark]>,
    pool: &'static [PoolMark],
    chances: Option<&'static [u32]>,
    staged: Option<&'static [u32]>,
    pulled: Option<&'static [u32]>,
}

fn are(places: &Places, wanted: Option<&[u32]>) -> bool {
    let Some(wanted) = wanted else {
        return true;
    };
    if places.len() != wanted.len() || places.is_empty() != wanted.is_empty() {
        return false;
    }
    for (place, number) in wanted.iter().enumerate() {
        if place >= places.len() || places.at(place) != *number {
            return false;
        }
    }
    true
}

fn planned(row: &Row) -> Option<Plan> {
    if let Some(marks) = row.front {
        if marks.len() > 8 {
            return None;
        }
    }
    Some(match row.push {
        Push::Evict => plan_evict(row.front, row.pool),
        Push::Flush => plan_flush(row.front, row.pool),
        Push::EvictTaking(taking) => plan_evict_taking(taking, row.front, row.pool),
        Push::FlushTaking(taking) => plan_flush_taking(taking, row.front, row.pool),
    })
}

// Plays rows, and answers how many hold, up to the first one that doesn't.
fn play(rows: &[Row]) -> usize {
    for (place, row) in rows.iter().enumerate() {
        let Some(plan) = planned(row) else {
            return place;
        };
        if !are(&plan.chances, row.chances) || !are(&plan.staged, row.staged) {
            return place;
        }
        if !are(&plan.pulled, row.pulled) {
            return place;
        }
    }
    rows.len()
}

const EVICTED_FRONT: &[Mark] = &[
    frame!(30, false, true, false),
    frame!(31, true, true, false),
    frame!(32, true, false, true),
    frame!(33, true, true, true),
    frame!(34, false, false, false),
];

const EVICTED_POOL: &[PoolMark] = &[pooled!(7, true, true), pooled!(8, false, false)];

// Of five frames of the front group two are valid and dirty. One of these was referenced: it has a second chance, as
// the clean frame that was. The pool has a changed page, and one with no frame.
const EVICTIONS: &[Row] = &[
    Row {
        push: Push::Evict,
        front: Some(EVICTED_FRONT),
        pool: EVICTED_POOL,
        chances: Some(&[2, 3]),
        staged: Some(&[1]),
        pulled: Some(&[7, 8]),
    },
    Row {
        push: Push::Evict,
        front: None,
        pool: EVICTED_POOL,
        chances: None,
        staged: Some(&[]),
        pulled: None,
    },
];

const FLUSHED_POOL: &[PoolMark] = &[
    pooled!(10, true, true),
    pooled!(11, false, false),
    pooled!(12, true, false),
    pooled!(13, true, true),
    pooled!(14, true, true),
    pooled!(15, false, true),
    pooled!(16, true, false),
    pooled!(17, true, true),
    pooled!(18, true, true),
    pooled!(19, true, true),
    pooled!(20, true, true),
];

// Of eleven pages nine are changed: the eight coldest of these are pulled. Then the last two of the eleven.
const FLUSHES: &[Row] = &[
    Row {
        push: Push::Flush,
        front: Some(&[frame!(3, true, true, false)]),
        pool: FLUSHED_POOL,
        chances: Some(&[]),
        staged: Some(&[0]),
        pulled: Some(&[10, 12, 13, 14, 16, 17, 18, 19]),
    },
    Row {
        push: Push::Flush,
        front: None,
        pool: &[pooled!(19, true, true), pooled!(20, true, true)],
        chances: None,
        staged: Some(&[]),
        pulled: Some(&[19, 20]),
    },
];

const TAKEN_FRONT: &[Mark] = &[
    frame!(30, false, true, true),
    frame!(31, true, true, true),
    frame!(32, true, false, true),
    frame!(33, true, true, false),
    frame!(34, true, false, false),
];

const TAKEN_POOL: &[PoolMark] = &[
    pooled!(7, true, true),
    pooled!(8, false, true),
    pooled!(9, false, false),
    pooled!(10, true, false),
    pooled!(11, false, true),
    pooled!(12, true, false),
    pooled!(13, true, true),
    pooled!(14, false, false),
];

const BOTH: PushPolicy = PushPolicy {
    chances: true,
    pulls: true,
};

const GROUPED: PushPolicy = PushPolicy {
    chances: false,
    pulls: true,
};

// Two of five frames were read and are the last of their pages. Of eight pages two are changed, two have no frame, and
// two more are changed and have none.
const TAKINGS: &[Row] = &[
    Row {
        push: Push::EvictTaking(BOTH),
        front: Some(TAKEN_FRONT),
        pool: TAKEN_POOL,
        chances: Some(&[1, 2]),
        staged: Some(&[3]),
        pulled: Some(&[7, 9, 10, 12, 13]),
    },
    Row {
        push: Push::FlushTaking(BOTH),
        front: Some(TAKEN_FRONT),
        pool: TAKEN_POOL,
        chances: Some(&[1, 2]),
        staged: None,
        pulled: Some(&[7, 10, 12, 13]),
    },
    Row {
        push: Push::EvictTaking(GROUPED),
        front: Some(TAKEN_FRONT),
        pool: TAKEN_POOL,
        chances: Some(&[]),
        staged: Some(&[1, 3]),
        pulled: Some(&[7, 9, 10, 12, 13, 14]),
    },
];

// The tests by their names.
const TESTS: [(&str, &[Row]); 3] = [
    ("an_eviction_stages_what_is_valid_and_dirty", EVICTIONS),
    ("a_flush_pulls_eight_changed_pages", FLUSHES),
    ("pushes_take_what_they_are_to", TAKINGS),
];

#[test]
fn rows_hold(rt: HostRuntime) {
    for (name, rows) in TESTS {
        let held = play(rows);
        assert!(rt; held == rows.len(), "{name}: row {held}");
    }
}
