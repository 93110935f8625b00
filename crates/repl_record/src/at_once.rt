ghost use Rattle.std.specs.Prelude.{◌≡◌, ◌+◌, ◌^◌, ◌≤◌, ◌↔◌, length, IsTrue, IfSome, All};
ghost use Rattle.repl_record.specs.Judging.{computed_sum};
ghost use Rattle.repl_record.specs.AtOnce.{HasImage, IsSound, passed};

use crate::answer::WalkStep;
use crate::checksum::crc32c;
use crate::record::HEAD_LENGTH;
use crate::walker::Walker;
use byteorder::{ByteOrder, LittleEndian};
use repl_lsn::Lsn;
use repl_page::{HEADER_LIMIT, PAGE_SIZE};

/// The size of a page as bytes are counted.
const PAGE: usize = PAGE_SIZE as usize;

impl Walker {
    /// How many bytes the next record's image has, where it begins here, lies whole among these bytes and on its page, and
    /// nothing is wrong in it. So a small record costs no more than its checksum and a look at its fields. `None` says
    /// nothing of the bytes.
    pub(crate) fn image_at_once(&self, bytes: &[u8]) -> Option<usize>
        ensures { IfSome result (HasImage self.now bytes.now) }
    {
        // That the size is that of segments is known once it is read.
        let _size = self.ident.size.bytes();
        let place = (self.at.0 % PAGE_SIZE as u64) as usize;
        if self.from != self.at || place < HEADER_LIMIT || bytes.len() < HEAD_LENGTH {
            return None;
        }
        let total = LittleEndian::read_u32(bytes) as usize;
        let end = total.next_multiple_of(8);
        if end > bytes.len() || end > PAGE - place {
            return None;
        }
        if is_sound(self.prev, &bytes[..total]) && are_zeros(&bytes[total..end]) {
            Some(end)
        } else {
            None
        }
    }

    /// Passes an image of so many bytes, after which the next begins, and tells its end.
    pub(crate) fn pass_image(&mut self, taken: usize) -> WalkStep
        requires { self.old.at + taken ≤ 2 ^ 63 }
        ensures told { result ≡ WalkStep.Whole self.old.at (self.old.at + taken) taken }
        ensures passed { self.new ≡ passed self.old taken }
    {
        let start = self.at;
        let end = Lsn(start.0 + taken as u64);
        self.at = end;
        self.from = end;
        self.prev = start;
        self.count = 0;
        self.sum = 0;
        WalkStep::Whole {
            start,
            end,
            used: taken,
        }
    }
}

/// Whether these are the bytes of a record after one that starts at `prev`.
fn is_sound(prev: Lsn, record: &[u8]) -> bool
    ensures { IsTrue result → IsSound prev record.now }
{
    if record.len() < HEAD_LENGTH {
        return false;
    }
    let total = LittleEndian::read_u32(record) as usize;
    let before = LittleEndian::read_u64(&record[8..]);
    let reserved = LittleEndian::read_u16(&record[18..]);
    if total != record.len() || before != prev.0 || reserved != 0 {
        return false;
    }
    LittleEndian::read_u32(&record[20..]) == sum_of(record)
}

/// The checksum of a record: of its body, and then of its first 20 bytes.
fn sum_of(record: &[u8]) -> u32
    requires { 24 ≤ length record.now }
    ensures { result ≡ computed_sum record.now }
{
    crc32c(crc32c(0, &record[HEAD_LENGTH..]), &record[..20])
}

/// Whether each byte is zero.
fn are_zeros(bytes: &[u8]) -> bool
    ensures { IsTrue result ↔ All (λ byte. byte ≡ 0) bytes.now }
{
    bytes.iter().all(|byte| *byte == 0)
}
