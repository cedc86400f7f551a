// The content of a master unit.
ghost use Rattle.std.specs.Prelude.{◌≡◌, ◌↔◌, ◌+◌, ◌*◌, ◌≤◌, ℕ, List, length, drop, IsTrue, IfOk, IfErr};
ghost use Rattle.std.specs.List.{AllByRecursion};
ghost use Rattle.byte_fields.specs.Writes.{Writes};
ghost use Rattle.checkpoint.specs.declared.master.Master.{Master};
ghost use Rattle.checkpoint.specs.Actives.{Ascend, FitsFields, ArePairs, spelling_of_all};
ghost use Rattle.checkpoint.specs.Units.{unit, IsUnit};

use crate::UNIT_LEN;
use crate::master::Master;
use crate::pairs::Pairs;
use byte_fields::{get_u64, put_u64};
use thiserror::Error;

// Where the number of active transactions stands, and where their pairs begin.
const COUNT_AT: usize = 24;

const PAIRS_AT: usize = 25;

const PAIR_LEN: usize = 16;

const ACTIVE_MAX: usize = 8;

/// The octets aren't the content of a master unit.
#[derive(Clone, Copy, Debug, PartialEq, Eq, Error)]
#[error("not a master unit")]
pub struct BadMaster;

// Writes pairs one after the other, from the place of the first on. All other octets stay.
fn write_pairs(active: &Pairs, content: &mut [u8])
    requires { length content.old ≡ UNIT_LEN }
    ensures written { Writes content.old content.new PAIRS_AT (spelling_of_all active.now) }
    ensures fit { AllByRecursion FitsFields active.now }
{
    for place in 0..active.len() {
        let (begin, last) = active.at(place);
        let at = PAIRS_AT + PAIR_LEN * place;
        put_u64(content, at, begin);
        put_u64(content, at + 8, last);
    }
}

// Reads so many pairs.
fn read_pairs(content: &[u8], count: usize) -> Pairs
    requires few { count ≤ ACTIVE_MAX }
    requires room { length content.now ≡ UNIT_LEN }
    ensures count { length result ≡ count }
    ensures spelled { ArePairs (drop PAIRS_AT content.now) result }
{
    let mut active = Pairs::new();
    for place in 0..count {
        let at = PAIRS_AT + PAIR_LEN * place;
        active.push(get_u64(content, at), get_u64(content, at + 8));
    }
    active
}

fn are_zero(octets: &[u8]) -> bool
    ensures { IsTrue result ↔ AllByRecursion (λ octet. octet ≡ 0) octets.now }
{
    octets.iter().all(|octet| *octet == 0)
}

/// The content of a master's unit: redo block, kept block and commits, the number of active transactions, and the LSNs
/// of the Begin and of the last record of each. Zeros follow.
pub fn write_master(master: &Master) -> [u8; UNIT_LEN]
    ensures written { result ≡ unit master.now }
    ensures spelled { Ascend master.now.active → IsUnit result master.now }
{
    let (redo, kept, commits) = (master.redo, master.kept, master.commits);
    let mut content = [0; UNIT_LEN];
    put_u64(&mut content, 0, redo);
    put_u64(&mut content, 8, kept);
    put_u64(&mut content, 16, commits);
    content[COUNT_AT] = master.active.len() as u8;
    write_pairs(&master.active, &mut content);
    content
}

/// The master whose unit has this content. `BadMaster` comes exactly where it isn't of the form: more than eight
/// transactions, LSNs of Begins that don't ascend, or another octet than zero behind the pairs.
pub fn read_master(content: &[u8]) -> Result<Master, BadMaster>
    requires { length content.now ≡ UNIT_LEN }
    ensures found { IfOk result (λ master. IsUnit content.now master) }
    ensures bad { IfErr result (λ e. (master : Master) → IsUnit content.now master → ⊥) }
{
    let count = content[COUNT_AT] as usize;
    if count > ACTIVE_MAX {
        return Err(BadMaster);
    }
    let active = read_pairs(content, count);
    if !active.ascend() {
        return Err(BadMaster);
    }
    if !are_zero(&content[PAIRS_AT + PAIR_LEN * count..]) {
        return Err(BadMaster);
    }
    Ok(Master {
        redo: get_u64(content, 0),
        kept: get_u64(content, 8),
        commits: get_u64(content, 16),
        active,
    })
}
