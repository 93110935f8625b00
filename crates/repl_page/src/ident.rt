ghost use Rattle.std.specs.Prelude.{◌≡◌};
ghost use Rattle.repl_page.specs.Header.{header_of, long_part_of};

use crate::header::{LongPart, PAGE_SIZE, PageHeader};
use repl_lsn::{Lsn, SegSize, Tli};

/// What all pages of one system's log have in common.
#[derive(Clone, Copy, Debug, PartialEq, Eq)]
pub struct Ident {
    /// The system's identifier.
    pub sysid: u64,
    /// The magic number of the pages' headers.
    pub magic: u16,
    /// How large the log's segments are.
    pub size: SegSize,
}

impl Ident {
    /// The header of the page at this address, on this timeline, which begins with so many bytes of a record that
    /// began on an earlier page.
    pub fn header(&self, tli: Tli, addr: Lsn, rem_len: u32) -> PageHeader
        ensures { result ≡ header_of self.now tli addr rem_len }
    {
        let long = self.long_part(addr);
        let continues = u16::from(rem_len > 0);
        let is_long = if long.is_some() { 2 } else { 0 };
        PageHeader {
            magic: self.magic,
            info: continues + is_long,
            tli,
            addr,
            rem_len,
            long,
        }
    }

    /// What the header of the page at this address has besides, where it is a segment's first.
    fn long_part(&self, addr: Lsn) -> Option<LongPart>
        ensures { result ≡ long_part_of self.now addr }
    {
        let seg_size = self.size.bytes();
        if addr.0 % u64::from(seg_size) < u64::from(PAGE_SIZE) {
            Some(LongPart {
                sysid: self.sysid,
                seg_size,
                page_size: PAGE_SIZE,
            })
        } else {
            None
        }
    }
}
