// A unit is written behind its closed gate and synced; then the gate is opened and synced.
ghost use Rattle.std.specs.Prelude.{◌≡◌, ◌+◌, ◌^◌, ◌++◌, ◌<◌, ◌≤◌, length, IsTrue, OnOk};
ghost use Rattle.std.specs.Int.{to_be_bytes, w64};
ghost use Rattle.site.specs.State.{IsSettled};
ghost use Rattle.site.specs.Moments.{LeavesOnly};
ghost use Rattle.sealed_ring.specs.Ring.{FitsIn, IsStaged, Opens};
ghost use Rattle.sealed_ring.specs.Ready.{region, ChangesOnly, LeavesEither, HasStaged, HasSealed};
ghost use Rattle.sealed_ring.specs.Ready.{MayAppend, WritesTo};

use crate::Shape;
use byte_fields::put_u64;
use site::{Failed, Site};

/// The gate of a unit that counts.
pub const OPEN: u8 = 0xA5;

const CLOSED: u8 = 0;

// A ring of units no longer than this doesn't pay for the buffer of the longest ones.
const SHORT_ROOM: u64 = 512;

// Appends the unit `hi`.
pub fn seal<S: Site>(site: &mut S, shape: Shape, hi: u64, content: &[u8]) -> Result<(), Failed>
    requires { MayAppend shape hi content.now (S.state site.old) }

    ensures sealed { IsTrue (S.state site.old).honest
        → HasSealed shape hi content.now (S.state site.old) (S.state site.new) result }
    ensures writes { WritesTo result shape.dev (S.state site.old) (S.state site.new) }
{
    stage(site, shape, hi, content)?;
    open(site, shape, hi)
}

// Puts the unit `hi` behind its closed gate, and closes the next gate, by a buffer that is long enough.
fn stage<S: Site>(site: &mut S, shape: Shape, hi: u64, content: &[u8]) -> Result<(), Failed>
    requires { MayAppend shape hi content.now (S.state site.old) }

    ensures staged { IsTrue (S.state site.old).honest
        → HasStaged shape hi content.now (S.state site.old) (S.state site.new) result }
    ensures writes { WritesTo result shape.dev (S.state site.old) (S.state site.new) }
{
    if shape.room <= SHORT_ROOM {
        stage_short(site, shape, hi, content)
    } else {
        stage_long(site, shape, hi, content)
    }
}

#[inline(never)]
fn stage_short<S: Site>(site: &mut S, shape: Shape, hi: u64, content: &[u8]) -> Result<(), Failed>
    requires may { MayAppend shape hi content.now (S.state site.old) }
    requires short { shape.room ≤ SHORT_ROOM }

    ensures staged { IsTrue (S.state site.old).honest
        → HasStaged shape hi content.now (S.state site.old) (S.state site.new) result }
    ensures writes { WritesTo result shape.dev (S.state site.old) (S.state site.new) }
{
    let mut buffer = [0u8; 520];
    stage_by(site, shape, hi, content, &mut buffer[..8 + content.len()])
}

#[inline(never)]
fn stage_long<S: Site>(site: &mut S, shape: Shape, hi: u64, content: &[u8]) -> Result<(), Failed>
    requires { MayAppend shape hi content.now (S.state site.old) }

    ensures staged { IsTrue (S.state site.old).honest
        → HasStaged shape hi content.now (S.state site.old) (S.state site.new) result }
    ensures writes { WritesTo result shape.dev (S.state site.old) (S.state site.new) }
{
    let mut buffer = [0u8; 32_904];
    stage_by(site, shape, hi, content, &mut buffer[..8 + content.len()])
}

// The same, by way of a buffer for the number and the content.
fn stage_by<S: Site>(
    site: &mut S,
    shape: Shape,
    hi: u64,
    content: &[u8],
    buffer: &mut [u8],
) -> Result<(), Failed>
    requires may { MayAppend shape hi content.now (S.state site.old) }
    requires buffer { length buffer.old ≡ 8 + shape.room }

    ensures staged { IsTrue (S.state site.old).honest
        → HasStaged shape hi content.now (S.state site.old) (S.state site.new) result }
    ensures writes { WritesTo result shape.dev (S.state site.old) (S.state site.new) }
{
    let slot = shape.base + hi % shape.slots * shape.stride;
    let next = shape.base + (hi + 1) % shape.slots * shape.stride;
    spell(hi, content, buffer);
    site.write_at(shape.dev, slot + 1, buffer)?;
    site.write_at(shape.dev, next, &[CLOSED])?;
    site.sync(shape.dev)
}

// The number and content of a unit, as they stand behind its gate.
fn spell(hi: u64, content: &[u8], into: &mut [u8])
    requires { length into.old ≡ 8 + length content.now }
    ensures { into.new ≡ to_be_bytes w64 hi ++ content.now }
{
    put_u64(into, 0, hi);
    into[8..].copy_from_slice(content);
}

// Opens the gate of the unit `hi`. Where it was staged, a crash leaves the units below it, or this one too.
fn open<S: Site>(site: &mut S, shape: Shape, hi: u64) -> Result<(), Failed>
    requires fits { FitsIn shape (length (region shape (S.state site.old))) }
    requires bounded { hi < 2 ^ 40 }

    ensures any_moment { IsTrue (S.state site.old).honest
        → IsSettled shape.dev (S.state site.old)
        → IsStaged shape hi (region shape (S.state site.old))
        → LeavesOnly (S.state site.old) (S.state site.new)
        (LeavesEither shape hi (region shape (S.state site.old))) }
    ensures changes { IsTrue (S.state site.old).honest
        → ChangesOnly shape.dev (S.state site.old) (S.state site.new) }
    ensures opens { IsTrue (S.state site.old).honest
        → OnOk result
        (Opens shape hi (region shape (S.state site.old)) (region shape (S.state site.new))) }
    ensures settled { IsTrue (S.state site.old).honest
        → OnOk result (IsSettled shape.dev (S.state site.new)) }
    ensures device_calls { IsTrue (S.state site.old).honest
        → OnOk result (length (S.state site.new).past ≡ length (S.state site.old).past + 2) }
    ensures writes { WritesTo result shape.dev (S.state site.old) (S.state site.new) }
{
    let slot = shape.base + hi % shape.slots * shape.stride;
    site.write_at(shape.dev, slot, &[OPEN])?;
    site.sync(shape.dev)
}
