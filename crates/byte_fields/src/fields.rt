ghost use Rattle.std.specs.Prelude.{◌≡◌, ◌+◌, ◌≤◌, ◌++◌, length, take, drop};
ghost use Rattle.std.specs.Int.{w16, w32, w64, from_be_bytes, to_be_bytes};

use byteorder::{BigEndian, ByteOrder};

/// The number in the two octets from a place on.
pub fn get_u16(bytes: &[u8], at: usize) -> u16
    requires { at + 2 ≤ length bytes.now }
    ensures { result ≡ from_be_bytes w16 (take 2 (drop at bytes.now)) }
{
    BigEndian::read_u16(&bytes[at..])
}

/// The number in the four octets from a place on.
pub fn get_u32(bytes: &[u8], at: usize) -> u32
    requires { at + 4 ≤ length bytes.now }
    ensures { result ≡ from_be_bytes w32 (take 4 (drop at bytes.now)) }
{
    BigEndian::read_u32(&bytes[at..])
}

/// The number in the eight octets from a place on.
pub fn get_u64(bytes: &[u8], at: usize) -> u64
    requires { at + 8 ≤ length bytes.now }
    ensures { result ≡ from_be_bytes w64 (take 8 (drop at bytes.now)) }
{
    BigEndian::read_u64(&bytes[at..])
}

/// Writes a number into the two octets from a place on. All other octets stay.
pub fn put_u16(bytes: &mut [u8], at: usize, value: u16)
    requires { at + 2 ≤ length bytes.old }
    ensures written { bytes.new ≡ take at bytes.old ++ (to_be_bytes w16 value ++ drop (at + 2) bytes.old) }
    ensures read_again { from_be_bytes w16 (take 2 (drop at bytes.new)) ≡ value }
{
    BigEndian::write_u16(&mut bytes[at..], value);
}

/// Writes a number into the four octets from a place on. All other octets stay.
pub fn put_u32(bytes: &mut [u8], at: usize, value: u32)
    requires { at + 4 ≤ length bytes.old }
    ensures written { bytes.new ≡ take at bytes.old ++ (to_be_bytes w32 value ++ drop (at + 4) bytes.old) }
    ensures read_again { from_be_bytes w32 (take 4 (drop at bytes.new)) ≡ value }
{
    BigEndian::write_u32(&mut bytes[at..], value);
}

/// Writes a number into the eight octets from a place on. All other octets stay.
pub fn put_u64(bytes: &mut [u8], at: usize, value: u64)
    requires { at + 8 ≤ length bytes.old }
    ensures written { bytes.new ≡ take at bytes.old ++ (to_be_bytes w64 value ++ drop (at + 8) bytes.old) }
    ensures read_again { from_be_bytes w64 (take 8 (drop at bytes.new)) ≡ value }
{
    BigEndian::write_u64(&mut bytes[at..], value);
}
