//! The whole log of a store, judged against what the store says of it.
//!
//! `check_log` reads the log from the floor to the flushed end and answers whether it is records, of which the last whole one
//! ends and starts where the store says, or which one flaw it has. A `LogCheck` judges the same of pieces of any log, and
//! keeps a fixed number of bytes. What fits is said in `specs/Fits.antt`, what each flaw is in `specs/Flaws.antt`, what a
//! `LogCheck` stands for in `specs/Machine.antt`, and what is answered of a store in `specs/Found.antt`. That a log that fits
//! has no flaw, and another one at most, is said by functions that compute nothing. Stands on `repl_walk` and `repl_store`.
//!
//! ```text
//! let mut check = LogCheck::new(floor, ident);
//! check.take(tli, &page);        // and the next page, and the next
//! check.fits(whole, prev)?;      // the last whole record ends at `whole` and starts at `prev`
//!
//! check_log(alloc, &mut store)?; // the same of all that is flushed
//! ```
#![tactic(auto)]

mod check;
mod flaw;
mod laws;
mod log_check;
mod reading;
mod verdict;
mod walking;

pub use check::{CheckFault, check_log};
pub use flaw::Flaw;
pub use laws::{fits_without_flaw, one_flaw};
pub use log_check::LogCheck;
