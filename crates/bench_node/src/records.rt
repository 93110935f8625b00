//! Records, laid out one after another.
ghost use Rattle.std.specs.Prelude.{◌≡◌, ◌%◌, ◌^◌, ◌≤◌, IfSome};

use bytes::Bytes;
use repl_lsn::{Lsn, Tli};
use repl_page::Ident;
use repl_record::{RecordIn, lay_out};
use std::alloc::Global;

/// How many bytes a record's body has.
const BODY: usize = 8_192;

/// No record is laid out past this position.
const LIMIT: u64 = 1 << 62;

/// The log that is to be received.
#[derive(Drop)]
pub struct Records {
    ident: Ident,
    tli: Tli,
    item: RecordIn,
    /// Where the next record is laid, and where the last one starts.
    at: Lsn,
    prev: Lsn,
    /// What is laid out, and was not taken.
    laid: Vec<u8>,
}

/// A record with a body of so many bytes.
pub fn item(alloc: Global, length: usize) -> Option<RecordIn> {
    let body = vec![in alloc; b'a'; length].ok()?;
    Some(RecordIn {
        xid: 0,
        info: 0,
        rmid: 0,
        body: Bytes::from_vec(body).ok()?,
    })
}

impl Records {
    /// The log from its origin on.
    pub fn new(alloc: Global, at: Lsn, tli: Tli, ident: Ident) -> Option<Records> {
        Some(Records {
            ident,
            tli,
            item: item(alloc, BODY)?,
            at,
            prev: Lsn(0),
            laid: Vec::new(alloc),
        })
    }

    /// Lays out records until so many bytes are there.
    pub fn lay(&mut self, alloc: Global, count: usize) -> Option<()> {
        for _ in 0..count {
            if self.laid.len() >= count {
                break;
            }
            let at = record_place(self.at)?;
            let laid = lay_out(alloc, at, self.prev, self.tli, &self.ident, &self.item).ok()?;
            self.laid.extend_from_slice(laid.bytes.as_slice()).ok()?;
            self.at = laid.end;
            self.prev = laid.start;
        }
        Some(())
    }

    /// The first of them.
    pub fn front(&self, count: usize) -> Option<&[u8]> {
        self.laid.as_slice().get(..count)
    }

    /// Takes them off.
    pub fn take(&mut self, alloc: Global, count: usize) -> Option<()> {
        let rest = Vec::from_slice(alloc, self.laid.as_slice().get(count..)?).ok()?;
        self.laid.clear();
        self.laid.extend_from_slice(&rest).ok()
    }
}

/// The position, where a record may be laid out there.
fn record_place(at: Lsn) -> Option<Lsn>
    ensures { IfSome result (λ at. (at % 8 ≡ 0) × (at ≤ 2 ^ 62)) }
{
    if at.0 % 8 == 0 && at.0 <= LIMIT {
        Some(at)
    } else {
        None
    }
}
