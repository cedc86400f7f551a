// A ring on a device: finding it, reading its units, appending to it.
ghost use Rattle.std.specs.Prelude.{◌≡◌, ◌≢◌, ◌⊎◌, ◌↔◌, ◌+◌, ◌-◌, ◌*◌, ◌/◌, ◌%◌, ◌^◌, ◌<◌, ◌≤◌};
ghost use Rattle.std.specs.Prelude.{length, take, drop, true, false};
ghost use Rattle.std.specs.Prelude.{IsTrue, IfOk, OnOk, OnErr, IfErr, IsErrOf};
ghost use Rattle.site.specs.State.{IsSettled, IsQuiet};
ghost use Rattle.site.specs.Calls.{Preserves, SameReads};
ghost use Rattle.site.specs.Faults.{WorkFaults};
ghost use Rattle.site.specs.Moments.{LeavesOnly};
ghost use Rattle.sealed_ring.specs.Ring.{FitsIn, IsRing, SameOutside, Seals, appended, gate, number, first_number};
ghost use Rattle.sealed_ring.specs.Ring.{unit_at, IsLive};
ghost use Rattle.sealed_ring.specs.Row.{in_row, HaveContents, HaveNumbers, StandInRow};
ghost use Rattle.sealed_ring.specs.Near.{IsFirstMissing, IsNear};
ghost use Rattle.sealed_ring.specs.Ready.{region, units_in, FaultRose, IsUsable, Matches, Finds, IsReady, ChangesOnly};
ghost use Rattle.sealed_ring.specs.Ready.{LeavesOldOrNew};
ghost use Rattle.sealed_ring.specs.Reading.{ReadsFrom};

use crate::Shape;
use crate::sealing::{OPEN, seal};
use byte_fields::get_u64;
use site::{Site, Stop};

// A ring is worn once it took this many units.
const HI_MAX: u64 = 1 << 40;

/// Where the content of a slot begins, behind its gate and its number.
pub const CONTENT_AT: usize = 9;

/// A ring, by its shape and the number of its next unit. It is ended once an append gave an error.
#[derive(Debug, PartialEq, Eq, Drop)]
pub struct Ring {
    pub shape: Shape,
    pub hi: u64,
    pub ended: bool,
}

impl Ring {
    /// Finds the ring that stands there: reads gate and number of each slot once, and once more those of slot `hi`.
    /// Content that isn't of the form may be refused or answered from.
    pub fn scan<S: Site>(site: &mut S, shape: Shape) -> Result<Ring, Stop>
        requires { FitsIn shape (length (region shape (S.state site.old))) }

        ensures shape { IfOk result (λ ring. ring.shape ≡ shape) }
        ensures usable { IfOk result (λ ring. IsUsable ring (S.state site.new)) }
        ensures ended { IfOk result (λ ring. ring.ended ≡ false) }
        ensures fits { IsTrue (S.state site.old).honest
            → IfOk result (λ ring. Matches ring (S.state site.new)) }
        ensures closed { IsTrue (S.state site.old).honest
            → IfOk result (λ ring.
            gate shape (region shape (S.state site.old)) (ring.hi % shape.slots) ≢ 165) }
        ensures reads { ReadsFrom result shape.dev (shape.slots + 1) (S.state site.old) (S.state site.new) }
        ensures foreign { IsErrOf result Stop.Foreign → IsTrue (S.state site.old).honest
            → IsRing shape (region shape (S.state site.old)) → ⊥ }
        ensures stops { IfErr result (λ e. (e ≡ Stop.Device shape.dev) ⊎ (e ≡ Stop.Foreign)) }
    {
        let mut hi = 0;
        for slot in 0..shape.slots {
            let head = match read_head(site, shape, slot) {
                Ok(head) => head,
                Err(stop) => return Err(stop),
            };
            if head.gate == OPEN && head.number % shape.slots == slot {
                if head.number >= HI_MAX {
                    return Err(Stop::Foreign);
                }
                hi = hi.max(head.number + 1);
            }
        }
        let head = match read_head(site, shape, hi % shape.slots) {
            Ok(head) => head,
            Err(stop) => return Err(stop),
        };
        if head.gate == OPEN {
            return Err(Stop::Foreign);
        }
        Ok(Ring {
            shape,
            hi,
            ended: false,
        })
    }

    /// Finds the ring from a number near its next unit: tries the units `first` to `first + 3` in order, and its next
    /// unit is the first that isn't there, else `first + 4`. It reads gate and number of each of these slots once, at
    /// most 5. Where the ring is of the form and its next unit is one of these numbers, it is the ring that `scan`
    /// finds.
    pub fn scan_near<S: Site>(site: &mut S, shape: Shape, first: u64) -> Result<Ring, Stop>
        requires fits { FitsIn shape (length (region shape (S.state site.old))) }
        requires slots { 6 ≤ shape.slots }
        requires bounded { first ≤ 2 ^ 40 }

        ensures shape { IfOk result (λ ring. ring.shape ≡ shape) }
        ensures usable { IfOk result (λ ring. IsUsable ring (S.state site.new)) }
        ensures ended { IfOk result (λ ring. ring.ended ≡ false) }
        ensures near { IfOk result (λ ring. (first ≤ ring.hi) × (ring.hi ≤ first + 4)) }
        ensures found { IsTrue (S.state site.old).honest
            → IfOk result (λ ring. IsFirstMissing shape (region shape (S.state site.old)) first ring.hi) }
        ensures fits { IsTrue (S.state site.old).honest
            → IsNear shape (region shape (S.state site.old)) first
            → IfOk result (λ ring. Matches ring (S.state site.new)) }
        ensures reads { ReadsFrom result shape.dev 5 (S.state site.old) (S.state site.new) }
        ensures foreign { IsErrOf result Stop.Foreign → IsTrue (S.state site.old).honest
            → IsNear shape (region shape (S.state site.old)) first → ⊥ }
        ensures stops { IfErr result (λ e. (e ≡ Stop.Device shape.dev) ⊎ (e ≡ Stop.Foreign)) }
    {
        for hi in first..first + 5 {
            let head = match read_head(site, shape, hi % shape.slots) {
                Ok(head) => head,
                Err(stop) => return Err(stop),
            };
            if head.gate != OPEN {
                return Ok(Ring {
                    shape,
                    hi,
                    ended: false,
                });
            }
            if head.number != hi {
                return Err(Stop::Foreign);
            }
            if hi == HI_MAX {
                return Err(Stop::Foreign);
            }
        }
        Err(Stop::Foreign)
    }

    /// One past the newest live unit.
    pub fn hi(&self) -> u64
        ensures { result ≡ self.now.hi }
    {
        self.hi
    }

    /// The oldest live unit, `hi` if there is none.
    pub fn oldest(&self) -> u64
        requires { 1 ≤ self.now.shape.slots }
        ensures { result ≡ self.now.hi - (self.now.shape.slots - 1) }
    {
        self.hi.saturating_sub(self.shape.slots - 1)
    }

    /// Whether an append gave an error. No further call on the ring is lawful then, though each stays safe.
    pub fn ended(&self) -> bool
        ensures { result ≡ self.now.ended }
    {
        self.ended
    }

    /// Reads the number of the live unit `n` into 8 octets, and the first octets of its content into those behind them,
    /// by one read.
    pub fn read_unit<S: Site>(&self, site: &mut S, n: u64, into: &mut [u8]) -> Result<(), Stop>
        requires usable { IsUsable self.now (S.state site.old) }
        requires live { IsLive self.now.shape self.now.hi n }
        requires number { 8 ≤ length into.old }
        requires room { length into.old ≤ 8 + self.now.shape.room }

        ensures unit { IsTrue (S.state site.old).honest → Matches self.now (S.state site.old)
            → OnOk result (drop 8 into.new
            ≡ take (length into.old - 8) (unit_at self.now.shape (units_in self.now.shape (S.state site.old)) n)) }
        ensures reads { ReadsFrom result self.now.shape.dev ((length into.old + 4095) / 4096)
            (S.state site.old) (S.state site.new) }
        ensures read_foreign { IsErrOf result Stop.Foreign → first_number into.new ≢ n }
        ensures read_own { OnOk result (first_number into.new ≡ n) }
        ensures foreign { IsErrOf result Stop.Foreign → IsTrue (S.state site.old).honest
            → number self.now.shape (region self.now.shape (S.state site.old)) (n % self.now.shape.slots) ≢ n }
        ensures own { IsTrue (S.state site.old).honest
            → OnOk result (number self.now.shape (region self.now.shape (S.state site.old))
            (n % self.now.shape.slots) ≡ n) }
        ensures stops { IfErr result (λ e. (e ≡ Stop.Device self.now.shape.dev)
            ⊎ (e ≡ Stop.Foreign)) }
    {
        let shape = self.shape;
        let at = shape.base + n % shape.slots * shape.stride + 1;
        let Ok(()) = site.read_at(shape.dev, at, into) else {
            return Err(Stop::Device(shape.dev));
        };
        if get_u64(into, 0) != n {
            return Err(Stop::Foreign);
        }
        Ok(())
    }

    /// Reads the slots of live units by one read: of the unit `n` and of as many behind it as stand in the slots behind
    /// its own and have room in `into`, whole slots of `stride` octets one behind the other. In each the content stands
    /// behind a gate and the number, from octet 9 on. Answers how many units were read.
    pub fn read_units<S: Site>(&self, site: &mut S, n: u64, into: &mut [u8]) -> Result<u64, Stop>
        requires usable { IsUsable self.now (S.state site.old) }
        requires live { IsLive self.now.shape self.now.hi n }

        ensures count { IfOk result (λ count.
            count ≡ in_row self.now.shape self.now.hi n (length into.old / self.now.shape.stride)) }
        ensures units { IsTrue (S.state site.old).honest → Matches self.now (S.state site.old)
            → IfOk result (λ count.
            HaveContents self.now.shape (units_in self.now.shape (S.state site.old)) n count into.new) }
        ensures reads { ReadsFrom result self.now.shape.dev
            ((in_row self.now.shape self.now.hi n (length into.old / self.now.shape.stride) * self.now.shape.stride
            + 4095) / 4096) (S.state site.old) (S.state site.new) }
        ensures read_foreign { IsErrOf result Stop.Foreign → HaveNumbers self.now.shape n
            (in_row self.now.shape self.now.hi n (length into.old / self.now.shape.stride)) into.new → ⊥ }
        ensures read_own { IfOk result (λ count. HaveNumbers self.now.shape n count into.new) }
        ensures foreign { IsErrOf result Stop.Foreign → IsTrue (S.state site.old).honest
            → StandInRow self.now.shape n
            (in_row self.now.shape self.now.hi n (length into.old / self.now.shape.stride))
            (region self.now.shape (S.state site.old)) → ⊥ }
        ensures own { IsTrue (S.state site.old).honest
            → IfOk result (λ count. StandInRow self.now.shape n count (region self.now.shape (S.state site.old))) }
        ensures stops { IfErr result (λ e. (e ≡ Stop.Device self.now.shape.dev)
            ⊎ (e ≡ Stop.Foreign)) }
    {
        let shape = self.shape;
        let count = self.count_in_row(n, into.len() as u64 / shape.stride);
        let slots = &mut into[..(count * shape.stride) as usize];
        let at = shape.base + n % shape.slots * shape.stride;
        let Ok(()) = site.read_at(shape.dev, at, slots) else {
            return Err(Stop::Device(shape.dev));
        };
        if !have_numbers(slots, shape, n, count) {
            return Err(Stop::Foreign);
        }
        Ok(count)
    }

    // How many units from the live unit `n` on stand in slots one behind the other, at most `most`.
    fn count_in_row(&self, n: u64, most: u64) -> u64
        requires live { IsLive self.now.shape self.now.hi n }
        ensures { result ≡ in_row self.now.shape self.now.hi n most }
    {
        most.min(self.hi - n)
            .min(self.shape.slots - n % self.shape.slots)
    }

    /// Reads a part of the content of the live unit `n`, from its octet `at` on, by one read. The one error is that of
    /// the ring's device.
    pub fn read_part<S: Site>(
        &self,
        site: &mut S,
        n: u64,
        at: u64,
        into: &mut [u8],
    ) -> Result<(), Stop>
        requires usable { IsUsable self.now (S.state site.old) }
        requires live { IsLive self.now.shape self.now.hi n }
        requires inside { at + length into.old ≤ self.now.shape.room }

        ensures part { IsTrue (S.state site.old).honest → Matches self.now (S.state site.old)
            → OnOk result (into.new ≡ take (length into.old) (drop at
            (unit_at self.now.shape (units_in self.now.shape (S.state site.old)) n))) }
        ensures reads { ReadsFrom result self.now.shape.dev ((length into.old + 4095) / 4096)
            (S.state site.old) (S.state site.new) }
        ensures stops { IfErr result (λ e. e ≡ Stop.Device self.now.shape.dev) }
    {
        let shape = self.shape;
        let from = shape.base + n % shape.slots * shape.stride + CONTENT_AT as u64 + at;
        let Ok(()) = site.read_at(shape.dev, from, into) else {
            return Err(Stop::Device(shape.dev));
        };
        Ok(())
    }

    /// Appends a unit of `room` octets: its number and content behind a closed gate, synced, then its gate open,
    /// synced.
    /// A crash at any moment leaves the old units, or the new one too. After an error the ring is ended: what stands
    /// there may be either, and is found by a scan. A ring takes 2^40 units and is then worn.
    pub fn append<S: Site>(&mut self, site: &mut S, content: &[u8]) -> Result<(), Stop>
        requires usable { IsUsable self.old (S.state site.old) }
        requires room { length content.now ≡ self.old.shape.room }

        ensures any_moment { IsTrue (S.state site.old).honest → IsReady self.old (S.state site.old)
            → LeavesOnly (S.state site.old) (S.state site.new)
            (LeavesOldOrNew self.old.shape (region self.old.shape (S.state site.old)) content.now) }
        ensures changes { IsTrue (S.state site.old).honest
            → ChangesOnly self.old.shape.dev (S.state site.old) (S.state site.new) }

        // Of every honest site, also while ranges of its device are loose at entry.
        ensures ready { IsTrue (S.state site.old).honest → Finds self.old (S.state site.old)
            → OnOk result (IsReady self.new (S.state site.new)) }
        ensures stands { IsTrue (S.state site.old).honest → Finds self.old (S.state site.old)
            → OnOk result (units_in self.old.shape (S.state site.new)
            ≡ appended self.old.shape (units_in self.old.shape (S.state site.old)) content.now) }
        ensures outside { IsTrue (S.state site.old).honest
            → OnOk result (SameOutside self.old.shape
            (region self.old.shape (S.state site.old)) (region self.old.shape (S.state site.new))) }

        // Of every honest site, whatever stood in the ring.
        ensures seals { IsTrue (S.state site.old).honest
            → OnOk result (Seals self.old.shape self.old.hi content.now
            (region self.old.shape (S.state site.old)) (region self.old.shape (S.state site.new))) }
        ensures settled { IsTrue (S.state site.old).honest
            → OnOk result (IsSettled self.old.shape.dev (S.state site.new)) }
        ensures quiet { IsTrue (S.state site.old).honest → IsQuiet (S.state site.old)
            → OnOk result (IsQuiet (S.state site.new)) }
        // Three writes and two syncs.
        ensures device_calls { IsTrue (S.state site.old).honest
            → OnOk result (length (S.state site.new).past ≡ length (S.state site.old).past + 5) }
        ensures fits { IsTrue (S.state site.old).honest → Matches self.old (S.state site.old)
            → OnOk result (Matches self.new (S.state site.new)) }

        // Of every site.
        ensures ok { OnOk result (self.new ≡ record self.old { hi = self.old.hi + 1 }) }
        ensures err { OnErr result (self.new ≡ record self.old { ended = true }) }
        ensures shape { self.new.shape ≡ self.old.shape }
        ensures usable { IsUsable self.new (S.state site.new) }
        ensures preserves { Preserves (S.state site.old) (S.state site.new) }
        ensures faults { WorkFaults result (S.state site.old) (S.state site.new) }
        ensures reads { SameReads (S.state site.old) (S.state site.new) }

        // When each answer comes.
        ensures worn { IsErrOf result (Stop.Worn self.old.shape.dev) ↔ (self.old.hi ≡ 2 ^ 40) }
        ensures unchanged { self.old.hi ≡ 2 ^ 40 → site.new ≡ site.old }
        ensures device { IsErrOf result (Stop.Device self.old.shape.dev)
            → FaultRose self.old.shape.dev (S.state site.old) (S.state site.new) }
        ensures stops { IfErr result (λ e. (e ≡ Stop.Device self.old.shape.dev)
            ⊎ (e ≡ Stop.Worn self.old.shape.dev)) }
    {
        let dev = self.shape.dev;
        if self.hi == HI_MAX {
            self.ended = true;
            return Err(Stop::Worn(dev));
        }
        let Ok(()) = seal(site, self.shape, self.hi, content) else {
            self.ended = true;
            return Err(Stop::Device(dev));
        };
        self.hi += 1;
        Ok(())
    }
}

// Whether `count` slots have the numbers from `n` on, as they were read.
fn have_numbers(slots: &[u8], shape: Shape, n: u64, count: u64) -> bool
    requires stride { 9 ≤ shape.stride }
    requires size { length slots.now ≡ count * shape.stride }
    requires bounded { n + count ≤ 2 ^ 40 }
    ensures { IsTrue result ↔ HaveNumbers shape n count slots.now }
{
    for place in 0..count {
        if get_u64(slots, (place * shape.stride + 1) as usize) != n + place {
            return false;
        }
    }
    true
}

/// The gate and the number of a slot.
#[derive(Clone, Copy, Debug, PartialEq, Eq, Drop)]
pub struct Head {
    pub gate: u8,
    pub number: u64,
}

/// Reads the gate and the number of a slot. The one error is that of the ring's device.
pub fn read_head<S: Site>(site: &mut S, shape: Shape, slot: u64) -> Result<Head, Stop>
    requires fits { FitsIn shape (length (region shape (S.state site.old))) }
    requires slot { slot < shape.slots }
    ensures gate { IsTrue (S.state site.old).honest
        → IfOk result (λ head. head.gate ≡ gate shape (region shape (S.state site.old)) slot) }
    ensures number { IsTrue (S.state site.old).honest
        → IfOk result (λ head. head.number ≡ number shape (region shape (S.state site.old)) slot) }
    ensures reads { ReadsFrom result shape.dev 1 (S.state site.old) (S.state site.new) }
    ensures stops { IfErr result (λ stop. stop ≡ Stop.Device shape.dev) }
{
    let mut head = [0u8; 9];
    let at = shape.base + slot * shape.stride;
    let Ok(()) = site.read_at(shape.dev, at, &mut head) else {
        return Err(Stop::Device(shape.dev));
    };
    Ok(Head {
        gate: head[0],
        number: get_u64(&head, 1),
    })
}
