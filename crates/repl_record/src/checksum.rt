ghost use Rattle.std.specs.Prelude.{◌≡◌, ℕ, ◌+◌, ◌^◌, ◌<◌, ◌≤◌, List, ◌++◌, length, take};
ghost use Rattle.byteorder.specs.Endian.{little_from};
ghost use Rattle.repl_record.specs.Checksum.{bits_of, checksum_from, message, remainder};
ghost use Rattle.repl_record.specs.Shifts.{past_bytes};

use crate::checksum_tables::LEFT_BEHIND;
use byteorder::{ByteOrder, LittleEndian};

/// The checksum CRC-32C of the bytes, which goes on from that of the bytes before them: `before` is what this call gave
/// for those, and 0 where there are none. It takes no memory.
pub fn crc32c(before: u32, bytes: &[u8]) -> u32
    ensures { result ≡ checksum_from before bytes.now }
{
    let mut register = before ^ 0xffff_ffff;
    let mut rest = bytes;
    while rest.len() >= 16 {
        register = after_sixteen(register, rest);
        rest = &rest[16..];
    }
    after_few(register, rest) ^ 0xffff_ffff
}

/// The register after these bytes, one at a time.
fn after_few(before: u32, bytes: &[u8]) -> u32
    ensures { result ≡ remainder before (message bytes.now) }
{
    let mut register = before;
    for byte in bytes {
        register = after_byte(register, *byte);
    }
    register
}

/// The register after a byte.
fn after_byte(register: u32, byte: u8) -> u32
    ensures { result ≡ remainder register (bits_of byte) }
{
    let lowest = (register % 256) as u8;
    (register >> 8) ^ entry(0, lowest ^ byte)
}

/// The register after the first sixteen bytes. Four of them are added to the register, each of the sixteen leaves
/// behind what its table says, and no step waits for another.
fn after_sixteen(register: u32, bytes: &[u8]) -> u32
    requires { 16 ≤ length bytes.now }
    ensures { result ≡ remainder register (message (take 16 bytes.now)) }
{
    let first = (register ^ LittleEndian::read_u32(bytes)).to_le_bytes();
    left_by_four(12, &first, 0)
        ^ left_by_four(8, bytes, 4)
        ^ left_by_four(4, bytes, 8)
        ^ left_by_four(0, bytes, 12)
}

/// What four bytes leave in the register after themselves and so many bytes of zeros.
fn left_by_four(zeros: usize, bytes: &[u8], place: usize) -> u32
    requires zeros { zeros ≤ 12 }
    requires place { place + 4 ≤ length bytes.now }
    ensures { result ≡ past_bytes (zeros + 4) (little_from place 4 bytes.now) }
{
    entry(zeros, bytes[place + 3])
        ^ entry(zeros + 1, bytes[place + 2])
        ^ entry(zeros + 2, bytes[place + 1])
        ^ entry(zeros + 3, bytes[place])
}

/// What a byte leaves in the register after itself and so many bytes of zeros.
fn entry(zeros: usize, byte: u8) -> u32
    requires { zeros < 16 }
    ensures { result ≡ past_bytes (zeros + 1) byte }
{
    LEFT_BEHIND[256 * zeros + byte as usize]
}

/// The checksum of bytes that come in two pieces goes on from that of the first.
pub fn checksum_goes_on()
    ensures { (before : ℕ) (a b : List ℕ) → before < 2 ^ 32 → checksum_from (checksum_from before a) b ≡ checksum_from before (a ++ b) }
{}
