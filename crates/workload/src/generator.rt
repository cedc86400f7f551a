// The sets that the numbers of a workload make.
ghost use Rattle.std.specs.Prelude.{◌≡◌, ◌≢◌, ◌*◌};
ghost use Rattle.workload.specs.Generator.{record_of, value_of};

use record_model::Octets;

/// The record and the value that a number of the generator sets, in a table of so many pages of 32 records: the record
/// is the number without its low 33 bits, modulo the count of records; the value is the number's 8 octets, big-endian.
pub fn load_set(x: u64, pages: u32) -> (u32, Octets)
    requires { pages ≢ 0 }
    ensures number { result.0 ≡ record_of x (32 * pages) }
    ensures value { result.1 ≡ value_of x }
{
    let records = 32 * u64::from(pages);
    let number = (x >> 33) % records;
    let Some(value) = Octets::from_slice(&x.to_be_bytes()) else {
        unreachable!();
    };
    (number as u32, value)
}
