ghost use Rattle.std.specs.Prelude.{◌≡◌, ◌+◌, ◌<◌, ◌≤◌, ◌++◌, length};
ghost use Rattle.byteorder.specs.Endian.{big_bytes};
ghost use Rattle.repl_control.specs.Control.{FitsFields, bytes_of, fields_in, fields_of, number_at};

use crate::control::{CONTROL_SIZE, Control};
use byteorder::{BigEndian, ByteOrder};
use repl_lsn::Lsn;

/// The first four bytes of a control: `PGRC`.
pub(crate) const MARK: u32 = 0x5047_5243;

/// The version of the file.
pub(crate) const VERSION: u16 = 1;

/// The numbers that stand in a control's bytes, field by field.
#[derive(Clone, Copy)]
pub(crate) struct Fields {
    pub mark: u32,
    pub version: u16,
    pub role: u8,
    pub zero: u8,
    pub sysid: u64,
    pub tli: u32,
    pub magic: u16,
    pub padding: u16,
    pub flushed: Lsn,
    pub whole: Lsn,
    pub floor: Lsn,
    pub prev: Lsn,
}

impl Fields {
    /// The numbers of a control, which fit their fields.
    pub fn of(control: &Control) -> Fields
        ensures value { result ≡ fields_of control.now }
        ensures fits { FitsFields control.now }
    {
        let (sysid, tli, magic) = (control.sysid, control.tli.0, control.magic);
        Fields {
            mark: MARK,
            version: VERSION,
            role: control.role.number(),
            zero: 0,
            sysid,
            tli,
            magic,
            padding: 0,
            flushed: control.flushed,
            whole: control.whole,
            floor: control.floor,
            prev: control.prev,
        }
    }

    /// The bytes of these numbers, which are big-endian.
    #[tactic(auto, unfolding(crate::specs::Control::bytes_of))]
    pub fn bytes(&self) -> [u8; CONTROL_SIZE]
        ensures { result ≡ bytes_of self.now }
    {
        let (role, zero) = (self.role, self.zero);
        let mut bytes = [0; CONTROL_SIZE];
        BigEndian::write_u32(&mut bytes, self.mark);
        BigEndian::write_u16(&mut bytes[4..], self.version);
        bytes[6] = role;
        bytes[7] = zero;
        BigEndian::write_u64(&mut bytes[8..], self.sysid);
        BigEndian::write_u32(&mut bytes[16..], self.tli);
        BigEndian::write_u16(&mut bytes[20..], self.magic);
        BigEndian::write_u16(&mut bytes[22..], self.padding);
        self.put_positions(&mut bytes[24..]);
        bytes
    }

    /// Fills the room with the bytes of the four positions.
    fn put_positions(&self, room: &mut [u8])
        requires { length room.old ≡ 32 }
        ensures { room.new ≡ big_bytes 8 self.now.flushed ++ big_bytes 8 self.now.whole ++ big_bytes 8 self.now.floor ++ big_bytes 8 self.now.prev }
    {
        BigEndian::write_u64(room, self.flushed.0);
        BigEndian::write_u64(&mut room[8..], self.whole.0);
        BigEndian::write_u64(&mut room[16..], self.floor.0);
        BigEndian::write_u64(&mut room[24..], self.prev.0);
    }

    /// The numbers that stand in the bytes.
    #[tactic(auto, unfolding(crate::specs::Control::fields_in))]
    pub fn read(bytes: &[u8]) -> Fields
        requires { length bytes.now ≡ CONTROL_SIZE }
        ensures { result ≡ fields_in bytes.now }
    {
        Fields {
            mark: u32_at(bytes, 0),
            version: u16_at(bytes, 4),
            role: u8_at(bytes, 6),
            zero: u8_at(bytes, 7),
            sysid: u64_at(bytes, 8),
            tli: u32_at(bytes, 16),
            magic: u16_at(bytes, 20),
            padding: u16_at(bytes, 22),
            flushed: Lsn(u64_at(bytes, 24)),
            whole: Lsn(u64_at(bytes, 32)),
            floor: Lsn(u64_at(bytes, 40)),
            prev: Lsn(u64_at(bytes, 48)),
        }
    }
}

/// The number of eight bytes at this place.
fn u64_at(bytes: &[u8], place: usize) -> u64
    requires { place + 8 ≤ length bytes.now }
    ensures { result ≡ number_at place 8 bytes.now }
{
    BigEndian::read_u64(&bytes[place..])
}

/// The number of four bytes at this place.
fn u32_at(bytes: &[u8], place: usize) -> u32
    requires { place + 4 ≤ length bytes.now }
    ensures { result ≡ number_at place 4 bytes.now }
{
    BigEndian::read_u32(&bytes[place..])
}

/// The number of two bytes at this place.
fn u16_at(bytes: &[u8], place: usize) -> u16
    requires { place + 2 ≤ length bytes.now }
    ensures { result ≡ number_at place 2 bytes.now }
{
    BigEndian::read_u16(&bytes[place..])
}

/// The number of the byte at this place.
fn u8_at(bytes: &[u8], place: usize) -> u8
    requires { place < length bytes.now }
    ensures { result ≡ number_at place 1 bytes.now }
{
    bytes[place]
}
