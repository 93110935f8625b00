ghost use Rattle.std.specs.Prelude.{◌≡◌, length};
ghost use Rattle.repl_lsn.specs.Segment.{IsSegSize};
ghost use Rattle.repl_page.specs.Page.{header_length};
ghost use Rattle.repl_page.specs.Header.{header_bytes, long_bytes, length_of};

use byteorder::{ByteOrder, LittleEndian};
use repl_lsn::{Lsn, SegSize, Tli};

/// How many bytes a page of the log has.
pub const PAGE_SIZE: u32 = 8192;

const _: () = prove!(PAGE_SIZE == 8192);

/// The most bytes that a page's header has.
pub const HEADER_LIMIT: usize = LONG_HEADER as usize;

/// How many bytes the header of a segment's first page has, and that of any other page.
const LONG_HEADER: u32 = 40;

const SHORT_HEADER: u32 = 24;

/// The header of a page (PostgreSQL 17 manual, section "WAL Internals").
#[derive(Clone, Copy, Debug, PartialEq, Eq)]
pub struct PageHeader {
    /// Says that pages of this form follow.
    pub magic: u16,
    /// Flags: bit 1 where the page begins with the rest of a record, bit 2 where the header is long.
    pub info: u16,
    /// The timeline that holds the page's address.
    pub tli: Tli,
    /// The position of the page's first byte.
    pub addr: Lsn,
    /// How many bytes of the record with whose rest the page begins are not on earlier pages; else 0.
    pub rem_len: u32,
    /// What a long header has besides.
    pub long: Option<LongPart>,
}

/// What the header of a segment's first page has besides.
#[derive(Clone, Copy, Debug, PartialEq, Eq)]
pub struct LongPart {
    /// The identifier of the system whose log it is.
    pub sysid: u64,
    /// How many bytes a segment has.
    pub seg_size: u32,
    /// How many bytes a page has.
    pub page_size: u32,
}

/// How many bytes the header has of the page in which the position is: 40 on a segment's first page, else 24.
pub fn header_size(addr: Lsn, size: SegSize) -> u32
    ensures value { result ≡ header_length size addr }
    ensures size { IsSegSize size }
{
    if addr.0 % u64::from(size.bytes()) < u64::from(PAGE_SIZE) {
        LONG_HEADER
    } else {
        SHORT_HEADER
    }
}

/// Fills `room` with the header's one spelling: 40 bytes where it has a long part, else 24. Numbers are
/// little-endian.
pub fn write_header(header: &PageHeader, room: &mut [u8])
    requires { length room.old ≡ length_of header.now }
    ensures { room.new ≡ header_bytes header.now }
{
    LittleEndian::write_u16(room, header.magic);
    LittleEndian::write_u16(&mut room[2..], header.info);
    LittleEndian::write_u32(&mut room[4..], header.tli.number());
    LittleEndian::write_u64(&mut room[8..], header.addr.0);
    LittleEndian::write_u32(&mut room[16..], header.rem_len);
    LittleEndian::write_u32(&mut room[20..], 0);
    if let Some(long) = header.long {
        write_long(long, &mut room[24..]);
    }
}

/// Fills `room` with the spelling of a long part.
fn write_long(long: LongPart, room: &mut [u8])
    requires { length room.old ≡ 16 }
    ensures { room.new ≡ long_bytes long }
{
    LittleEndian::write_u64(room, long.sysid);
    LittleEndian::write_u32(&mut room[8..], long.seg_size);
    LittleEndian::write_u32(&mut room[12..], long.page_size);
}
