// The newest master of the devices: reading it, and saving a newer one.
ghost use Rattle.std.specs.Prelude.{◌≡◌, ◌⊎◌, ◌↔◌, ◌+◌, ◌^◌, ◌≤◌, [], ◌∷◌, length, true, false, IsTrue, IfOk};
ghost use Rattle.std.specs.Prelude.{OnOk, OnErr, IfErr, IsErrOf};
ghost use Rattle.site.specs.declared.outside.Dev.{Dev};
ghost use Rattle.site.specs.declared.outside.Stop.{Stop};
ghost use Rattle.site.specs.declared.geometry.Geometry.{Geometry};
ghost use Rattle.site.specs.Geometry.{HasLimits, HasLengths};
ghost use Rattle.site.specs.State.{IsSettled, IsQuiet};
ghost use Rattle.site.specs.Calls.{Preserves, SameReads};
ghost use Rattle.site.specs.Faults.{WorkFaults};
ghost use Rattle.site.specs.Moments.{LeavesOnly};
ghost use Rattle.sealed_ring.specs.Ring.{IsRing, SameOutside, appended};
ghost use Rattle.sealed_ring.specs.Reading.{ReadsFrom};
ghost use Rattle.sealed_ring.specs.Ready.{FaultRose, IsUsable, Matches, Finds, IsReady, ChangesOnly};
ghost use Rattle.image_changes.specs.Rings.{master_shape, units_on};
ghost use Rattle.image_changes.specs.Changes.{AppendsMaster, Reaches};
ghost use Rattle.image_changes.specs.Reached.{LeavesFront};
ghost use Rattle.checkpoint.specs.declared.master.Master.{Master};
ghost use Rattle.checkpoint.specs.Actives.{Ascend};
ghost use Rattle.checkpoint.specs.Units.{unit, IsUnit};
ghost use Rattle.checkpoint.specs.Newest.{HasMaster};
ghost use Rattle.checkpoint.specs.Saved.{LeavesMaster};

use crate::UNIT_LEN;
use crate::codec::{read_master, write_master};
use crate::master::Master;
use sealed_ring::{Ring, Shape};
use site::{Dev, Site, Stop};

// Where the master units lie: at the front of the log device.
fn shape() -> Shape
    ensures { result ≡ master_shape }
{
    Shape {
        dev: Dev::Log,
        base: 0,
        slots: 3,
        stride: 512,
        room: UNIT_LEN as u64,
    }
}

// The master of the ring's newest unit, and the blank one where the ring has no unit.
fn master_on<S: Site>(site: &mut S, ring: &Ring) -> Result<Master, Stop>
    requires usable { IsUsable ring.now (S.state site.old) }
    requires shape { ring.now.shape ≡ master_shape }

    ensures master { IsTrue (S.state site.old).honest → Matches ring.now (S.state site.old)
        → IfOk result (λ master. HasMaster (S.state site.old).image master) }
    ensures ascend { IfOk result (λ master. Ascend master.active) }
    ensures few { IfOk result (λ master. length master.active ≤ 8) }
    ensures reads { ReadsFrom result Dev.Log 1 (S.state site.old) (S.state site.new) }
    ensures foreign { IsErrOf result Stop.Foreign → IsTrue (S.state site.old).honest
        → Finds ring.now (S.state site.old) → (master : Master)
        → HasMaster (S.state site.old).image master → ⊥ }
    ensures stops { IfErr result (λ stop. (stop ≡ Stop.Device Dev.Log) ⊎ (stop ≡ Stop.Foreign)) }
{
    let hi = ring.hi();
    if hi == 0 {
        return Ok(Master::blank());
    }
    let mut unit = [0u8; 8 + UNIT_LEN];
    ring.read_unit(site, hi - 1, &mut unit)?;
    let Ok(master) = read_master(&unit[8..]) else {
        return Err(Stop::Foreign);
    };
    Ok(master)
}

/// The ring of master units, and the master of its newest unit: the blank one where there is no unit. It takes five
/// reads at most, and no memory. Content that isn't of the form may be refused or answered from.
pub fn newest<S: Site>(site: &mut S) -> Result<(Ring, Master), Stop>
    requires { 1536 ≤ length (S.state site.old).image.log }

    // Of an honest site, also while ranges of its devices are loose.
    ensures master { IsTrue (S.state site.old).honest
        → IfOk result (λ found. HasMaster (S.state site.old).image found.1) }
    ensures found { IsTrue (S.state site.old).honest → IsRing master_shape (S.state site.old).image.log
        → IfOk result (λ found. Finds found.0 (S.state site.new)) }
    ensures ready { IsTrue (S.state site.old).honest → IsSettled Dev.Log (S.state site.old)
        → IsRing master_shape (S.state site.old).image.log
        → IfOk result (λ found. IsReady found.0 (S.state site.new)) }
    ensures fits { IsTrue (S.state site.old).honest
        → IfOk result (λ found. Matches found.0 (S.state site.new)) }

    // Of every site.
    ensures shape { IfOk result (λ found. found.0.shape ≡ master_shape) }
    ensures usable { IfOk result (λ found. IsUsable found.0 (S.state site.new)) }
    ensures ended { IfOk result (λ found. found.0.ended ≡ false) }
    ensures ascend { IfOk result (λ found. Ascend found.1.active) }
    ensures few { IfOk result (λ found. length found.1.active ≤ 8) }
    ensures reads { ReadsFrom result Dev.Log 5 (S.state site.old) (S.state site.new) }
    ensures foreign { IsErrOf result Stop.Foreign → IsTrue (S.state site.old).honest
        → IsRing master_shape (S.state site.old).image.log → (master : Master)
        → HasMaster (S.state site.old).image master → ⊥ }
    ensures stops { IfErr result (λ stop. (stop ≡ Stop.Device Dev.Log) ⊎ (stop ≡ Stop.Foreign)) }
{
    let ring = Ring::scan(site, shape())?;
    let master = master_on(site, &ring)?;
    Ok((ring, master))
}

/// Appends a master's unit to the master ring. A crash at any moment leaves the newest master of before, or this one.
/// After an error the ring is ended. It takes 2^40 units and is then worn.
pub fn save<S: Site>(site: &mut S, ring: &mut Ring, master: &Master) -> Result<(), Stop>
    requires usable { IsUsable ring.old (S.state site.old) }
    requires shape { ring.old.shape ≡ master_shape }
    requires ascend { Ascend master.now.active }

    // Of an honest site on which nothing of the log is loose.
    ensures any_moment { IsTrue (S.state site.old).honest → IsReady ring.old (S.state site.old)
        → LeavesOnly (S.state site.old) (S.state site.new) (LeavesMaster (S.state site.old) master.now) }
    ensures front { (g : Geometry) → HasLimits g → HasLengths g (S.state site.old).image
        → IsTrue (S.state site.old).honest → IsReady ring.old (S.state site.old)
        → IsQuiet (S.state site.old)
        → LeavesFront g (AppendsMaster (unit master.now) ∷ []) (S.state site.old) (S.state site.new) }

    // Of every honest site whose ring is of the form.
    ensures master { IsTrue (S.state site.old).honest → Finds ring.old (S.state site.old)
        → OnOk result (HasMaster (S.state site.new).image master.now) }
    ensures reaches { (g : Geometry) → HasLimits g → HasLengths g (S.state site.old).image
        → IsTrue (S.state site.old).honest → Finds ring.old (S.state site.old)
        → OnOk result (Reaches g (AppendsMaster (unit master.now) ∷ []) (S.state site.old).image
        (S.state site.new).image) }
    ensures stands { IsTrue (S.state site.old).honest → Finds ring.old (S.state site.old)
        → OnOk result (units_on master_shape (S.state site.new).image
        ≡ appended master_shape (units_on master_shape (S.state site.old).image) (unit master.now)) }
    ensures ready { IsTrue (S.state site.old).honest → Finds ring.old (S.state site.old)
        → OnOk result (IsReady ring.new (S.state site.new)) }

    // Of every honest site.
    ensures beside { IsTrue (S.state site.old).honest
        → OnOk result (SameOutside master_shape (S.state site.old).image.log (S.state site.new).image.log) }
    ensures changes { IsTrue (S.state site.old).honest
        → ChangesOnly Dev.Log (S.state site.old) (S.state site.new) }
    ensures fits { IsTrue (S.state site.old).honest → Matches ring.old (S.state site.old)
        → OnOk result (Matches ring.new (S.state site.new)) }
    ensures settled { IsTrue (S.state site.old).honest → OnOk result (IsSettled Dev.Log (S.state site.new)) }
    ensures quiet { IsTrue (S.state site.old).honest → IsQuiet (S.state site.old)
        → OnOk result (IsQuiet (S.state site.new)) }
    ensures device_calls { IsTrue (S.state site.old).honest
        → OnOk result (length (S.state site.new).past ≡ length (S.state site.old).past + 5) }

    // Of every site.
    ensures unit { IsUnit (unit master.now) master.now }
    ensures ok { OnOk result (ring.new ≡ record ring.old { hi = ring.old.hi + 1 }) }
    ensures err { OnErr result (ring.new ≡ record ring.old { ended = true }) }
    ensures shape { ring.new.shape ≡ master_shape }
    ensures usable { IsUsable ring.new (S.state site.new) }
    ensures preserves { Preserves (S.state site.old) (S.state site.new) }
    ensures faults { WorkFaults result (S.state site.old) (S.state site.new) }
    ensures reads { SameReads (S.state site.old) (S.state site.new) }

    // When each answer comes.
    ensures worn { IsErrOf result (Stop.Worn Dev.Log) ↔ (ring.old.hi ≡ 2 ^ 40) }
    ensures unchanged { ring.old.hi ≡ 2 ^ 40 → site.new ≡ site.old }
    ensures device { IsErrOf result (Stop.Device Dev.Log)
        → FaultRose Dev.Log (S.state site.old) (S.state site.new) }
    ensures stops { IfErr result (λ stop. (stop ≡ Stop.Device Dev.Log)
        ⊎ (stop ≡ Stop.Worn Dev.Log)) }
{
    let content = write_master(master);
    ring.append(site, &content)
}
