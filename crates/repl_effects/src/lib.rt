//! What an object of the outside keeps for its contracts: counts that never fall, and bytes that it
//! tells or does not tell.
//!
//! A source, a sink or a disk cannot promise that it works. It promises that a bad answer and a higher
//! count go together, so that code above it can be held to its answers: a fault is answered only where
//! the count of faults rose. `specs/Counts.antt` has the words on counts, `specs/Told.antt` those on
//! bytes. `Count` is the counter that the objects of this repository keep. Stands on std alone.
//!
//! ```text
//! let mut faults = Count::new();
//! faults.raise();
//! faults.get() // 1
//! ```
#![tactic(auto)]

mod count;

pub use count::Count;
