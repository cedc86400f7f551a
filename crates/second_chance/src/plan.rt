ghost use Rattle.std.specs.Prelude.{◌≡◌, ◌≤◌, ◌-◌, ◌==◌, not, if◌then◌else◌, ◌&&◌, ◌||◌, true, false, [], length, map};
ghost use Rattle.std.specs.Prelude.{filter, take, unwrap_or, IsTrue};
ghost use Rattle.std.specs.Option.{ForSome, option_copied};
ghost use Rattle.std.specs.List.{enumerate_from};
ghost use Rattle.second_chance.specs.Plans.{chances_given, pages_pulled, chances_of, eviction_plan, flush_plan};
ghost use Rattle.second_chance.specs.Laws.{names};

use crate::places::Places;
use byte_fields::Mark;

/// The most frames that a group has.
const GROUP_SIZE: usize = 8;

/// The most frames of a group that are given a second chance.
const MOST_CHANCES: usize = 7;

/// What a plan knows of a page in the pool.
#[derive(Clone, Copy, Debug, PartialEq, Eq)]
pub struct PoolMark {
    /// The page's number.
    pub page: u32,
    /// Whether it was changed since it came into the pool or was last put into a group.
    pub changed: bool,
    /// Whether it has a frame in the queue.
    pub framed: bool,
}

/// What a push does. The frames of the front group are named by their places in it, from 0 on, the pages of the pool by
/// their numbers.
#[derive(Debug, Drop)]
pub struct Plan {
    /// The frames that are put into the new group.
    pub chances: Places,
    /// The frames that are written to disk.
    pub staged: Places,
    /// The pages that are taken from the pool into the new group.
    pub pulled: Places,
}

/// Which pages a push takes beside those that it saves.
#[derive(Clone, Copy, Debug, PartialEq, Eq)]
pub struct PushPolicy {
    /// Whether frames that were read are given a second chance.
    pub chances: bool,
    /// Whether an eviction pulls pages from the cold end of the pool.
    pub pulls: bool,
}

/// What the pushes of the page cache take.
const TAKING: PushPolicy = PushPolicy {
    chances: true,
    pulls: true,
};

/// What the push of an evicted page does in the page cache: `plan_evict_taking`, with second chances and pulled pages.
pub fn plan_evict(front: Option<&[Mark]>, pool: &[PoolMark]) -> Plan
    requires { ForSome front (λ marks. length marks.now ≤ 8) }
    ensures { result ≡ eviction_plan pages_pulled chances_given (unwrap_or (option_copied front.entry) []) pool.now }
{
    plan_evict_taking(TAKING, front, pool)
}

/// What a push of a flush does in the page cache: `plan_flush_taking`, with second chances.
pub fn plan_flush(front: Option<&[Mark]>, pool: &[PoolMark]) -> Plan
    requires { ForSome front (λ marks. length marks.now ≤ 8) }
    ensures { result ≡ flush_plan chances_given (unwrap_or (option_copied front.entry) []) pool.now }
{
    plan_flush_taking(TAKING, front, pool)
}

/// What the push of an evicted page does. The evicted page isn't in `pool` any more, which has the coldest page in
/// front; of the pages that are changed or have no frame the first seven are enough. `front` is none where the queue
/// has room for one group more.
pub fn plan_evict_taking(taking: PushPolicy, front: Option<&[Mark]>, pool: &[PoolMark]) -> Plan
    requires { ForSome front (λ marks. length marks.now ≤ 8) }
    ensures { result ≡ eviction_plan taking.pulls taking.chances (unwrap_or (option_copied front.entry) []) pool.now }
{
    let front = front.unwrap_or(&[]);
    let chances = chance_places(taking.chances, front);
    let staged = staged_places(&chances, front);
    let pulled = pulled_pages(taking.pulls, GROUP_SIZE - 1 - chances.len(), pool);
    Plan {
        chances,
        staged,
        pulled,
    }
}

/// What a push of a flush does. `pool` has the coldest page in front; of the pages that are changed the first eight are
/// enough.
/// `front` is none where the queue has room for one group more.
pub fn plan_flush_taking(taking: PushPolicy, front: Option<&[Mark]>, pool: &[PoolMark]) -> Plan
    requires { ForSome front (λ marks. length marks.now ≤ 8) }
    ensures { result ≡ flush_plan taking.chances (unwrap_or (option_copied front.entry) []) pool.now }
{
    let front = front.unwrap_or(&[]);
    let chances = chance_places(taking.chances, front);
    let staged = staged_places(&chances, front);
    let pulled = changed_pages(GROUP_SIZE - chances.len(), pool);
    Plan {
        chances,
        staged,
        pulled,
    }
}

/// The places of the frames that are given a second chance when their group leaves.
fn chance_places(given: bool, front: &[Mark]) -> Places
    requires { length front.now ≤ 8 }
    ensures places { result ≡ map (λ f. f.0) (chances_of given front.now) }
    ensures few { length result ≤ 7 }
{
    let mut chances = Places::new();
    if !given {
        return chances;
    }
    for (place, mark) in front.iter().enumerate() {
        if chances.len() == MOST_CHANCES {
            break;
        }
        if is_wanted(mark) {
            chances.push(place as u32);
        }
    }
    chances
}

/// Whether a frame was read since it came into its group, and is its page's last.
fn is_wanted(mark: &Mark) -> bool
    ensures { result ≡ (mark.now.valid && mark.now.referenced) }
{
    mark.valid && mark.referenced
}

/// The places of the frames that go to the disk when their group leaves, where these have a second chance.
fn staged_places(chances: &Places, front: &[Mark]) -> Places
    requires few { length front.now ≤ 8 }
    ensures { result ≡ map (λ f. f.0)
        (filter (λ f. (f.1.valid && f.1.dirty) && not (names chances.now f.0)) (enumerate_from 0 front.now)) }
{
    let mut staged = Places::new();
    for (place, mark) in front.iter().enumerate() {
        if is_staged(chances, place as u32, mark) {
            staged.push(place as u32);
        }
    }
    staged
}

/// Whether a frame, by its place, is to be written to disk when its group leaves the queue.
fn is_staged(chances: &Places, place: u32, mark: &Mark) -> bool
    ensures { result ≡ ((mark.now.valid && mark.now.dirty) && not (names chances.now place)) }
{
    mark.valid && mark.dirty && !chances.contains(place)
}

/// What an eviction pulls from the pool, into a group that has room for so many pages more.
fn pulled_pages(pulls: bool, room: usize, pool: &[PoolMark]) -> Places
    requires { room ≤ 8 }
    ensures { result ≡ map (λ p. p.page)
        (if pulls then take room (filter (λ p. p.changed || not p.framed) pool.now) else []) }
{
    if pulls {
        movable_pages(room, pool)
    } else {
        Places::new()
    }
}

/// The first pages that are changed or have no frame, so many at most. It looks no further than the last of them.
fn movable_pages(room: usize, pool: &[PoolMark]) -> Places
    requires { room ≤ 8 }
    ensures { result ≡ map (λ p. p.page) (take room (filter (λ p. p.changed || not p.framed) pool.now)) }
{
    let mut movable = Places::new();
    for mark in pool {
        if movable.len() == room {
            break;
        }
        if is_movable(mark) {
            movable.push(mark.page);
        }
    }
    movable
}

/// Whether a page that leaves the pool has to be put into a group.
fn is_movable(mark: &PoolMark) -> bool
    ensures { result ≡ (mark.now.changed || not mark.now.framed) }
{
    mark.changed || !mark.framed
}

/// The first pages that are changed, so many at most. It looks no further than the last of them.
fn changed_pages(room: usize, pool: &[PoolMark]) -> Places
    requires { room ≤ 8 }
    ensures { result ≡ map (λ p. p.page) (take room (filter (λ p. p.changed) pool.now)) }
{
    let mut changed = Places::new();
    for mark in pool {
        if changed.len() == room {
            break;
        }
        if mark.changed {
            changed.push(mark.page);
        }
    }
    changed
}
