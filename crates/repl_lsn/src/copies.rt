//! Copies of parts and histories.
ghost use Rattle.std.specs.Prelude.{◌≡◌, IfOk};

use crate::history::{History, Part, Parts};
use std::alloc::{AllocError, Global};

impl Part {
    /// A copy of the part. Takes memory for its reason.
    pub fn copy(&self, alloc: Global) -> Result<Part, AllocError>
        ensures { IfOk result (λ part. part ≡ self.now) }
    {
        Ok(Part {
            tli: self.tli,
            switch: self.switch,
            reason: self.reason.copy(alloc)?,
        })
    }
}

impl Parts {
    /// A copy of the parts. Takes memory for them.
    pub fn copy(&self, alloc: Global) -> Result<Parts, AllocError>
        ensures { IfOk result (λ parts. parts ≡ self.now) }
    {
        Ok(Parts::new(copy_parts(self.as_slice(), alloc)?))
    }
}

impl History {
    /// A copy of the history. Takes memory for the parts before its own timeline.
    pub fn copy(&self, alloc: Global) -> Result<History, AllocError>
        ensures { IfOk result (λ history. history ≡ self.now) }
    {
        Ok(History::of(self.own(), self.parents().copy(alloc)?))
    }
}

/// Copies of the parts, with room for one more. Takes memory.
pub(crate) fn copy_parts(parts: &[Part], alloc: Global) -> Result<Vec<Part>, AllocError>
    ensures { IfOk result (λ copies. copies.items ≡ parts.now) }
{
    let mut copies = Vec::with_capacity(alloc, parts.len() + 1)?;
    for part in parts {
        copies.push(part.copy(alloc)?)?;
    }
    Ok(copies)
}
