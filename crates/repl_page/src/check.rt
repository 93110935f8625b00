ghost use Rattle.std.specs.Prelude.{◌≤◌, ◌↔◌, length, IsOk, IfErr};
ghost use Rattle.repl_page.specs.Header.{Agrees, AgreesShort, AgreesLong, IsPageFault, IsShortFault, IsLongFault, length_of};

use crate::fault::PageFault;
use crate::header::{LongPart, PageHeader};
use byteorder::{ByteOrder, LittleEndian};

/// The flags that are judged: the two lowest.
const JUDGED: u16 = 4;

/// Judges the header at the front of the bytes against the one that is expected, field by field in the order in which
/// they stand: the first that differs is the fault. Of the flags only the two lowest are judged, and the four bytes of
/// padding are not read. Bytes after the header are not read either.
pub fn check_header(expected: &PageHeader, bytes: &[u8]) -> Result<(), PageFault>
    requires { length_of expected.now ≤ length bytes.now }
    ensures agrees { IsOk result ↔ Agrees expected.now bytes.now }
    ensures refused { IfErr result (IsPageFault expected.now bytes.now) }
{
    check_short(expected, bytes)?;
    match expected.long {
        Some(long) => check_long(long, &bytes[24..]),
        None => Ok(()),
    }
}

/// Judges the fields that each header has.
fn check_short(expected: &PageHeader, bytes: &[u8]) -> Result<(), PageFault>
    requires { 24 ≤ length bytes.now }
    ensures agrees { IsOk result ↔ AgreesShort expected.now bytes.now }
    ensures refused { IfErr result (IsShortFault expected.now bytes.now) }
{
    let magic = LittleEndian::read_u16(bytes);
    if magic != expected.magic {
        return Err(PageFault::Magic {
            found: u64::from(magic),
            expected: u64::from(expected.magic),
        });
    }
    let info = LittleEndian::read_u16(&bytes[2..]);
    if info % JUDGED != expected.info % JUDGED {
        return Err(PageFault::Info {
            found: u64::from(info),
            expected: u64::from(expected.info),
        });
    }
    let tli = LittleEndian::read_u32(&bytes[4..]);
    if tli != expected.tli.number() {
        return Err(PageFault::Timeline {
            found: u64::from(tli),
            expected: u64::from(expected.tli.number()),
        });
    }
    let addr = LittleEndian::read_u64(&bytes[8..]);
    if addr != expected.addr.0 {
        return Err(PageFault::Address {
            found: addr,
            expected: expected.addr.0,
        });
    }
    let rem_len = LittleEndian::read_u32(&bytes[16..]);
    if rem_len != expected.rem_len {
        return Err(PageFault::RemLen {
            found: u64::from(rem_len),
            expected: u64::from(expected.rem_len),
        });
    }
    Ok(())
}

/// Judges the fields that a long header has besides; the bytes are those after the others.
fn check_long(expected: LongPart, bytes: &[u8]) -> Result<(), PageFault>
    requires { 16 ≤ length bytes.now }
    ensures agrees { IsOk result ↔ AgreesLong expected bytes.now }
    ensures refused { IfErr result (IsLongFault expected bytes.now) }
{
    let sysid = LittleEndian::read_u64(bytes);
    if sysid != expected.sysid {
        return Err(PageFault::SysId {
            found: sysid,
            expected: expected.sysid,
        });
    }
    let seg_size = LittleEndian::read_u32(&bytes[8..]);
    if seg_size != expected.seg_size {
        return Err(PageFault::SegSize {
            found: u64::from(seg_size),
            expected: u64::from(expected.seg_size),
        });
    }
    let page_size = LittleEndian::read_u32(&bytes[12..]);
    if page_size != expected.page_size {
        return Err(PageFault::BlockSize {
            found: u64::from(page_size),
            expected: u64::from(expected.page_size),
        });
    }
    Ok(())
}
