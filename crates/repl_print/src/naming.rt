//! The spelling of a standby list.
ghost use Rattle.std.specs.Prelude.{◌≡◌, ◌⊎◌, ℕ, IfOk, IfErr};
ghost use Rattle.repl_effects.specs.Counts.{RoseExactly};
ghost use Rattle.repl_names.specs.declared.fault.NamesFault.TheVariants as names_fault;
ghost use Rattle.repl_names.specs.StandbyList.{Listing};
ghost use Rattle.repl_names.specs.Grammar.{SaysList};
ghost use Rattle.repl_filter.specs.declared.converter.Refused.TheVariants as refused;
ghost use Rattle.repl_filter.specs.Converting.{is_write_fault};
ghost use Rattle.repl_print.specs.Names.{IsNoList, IsPlace, Named, NamesEnd, names_line};

use repl_filter::{Converted, Refused};
use repl_io::{Sent, Sink, write_all};
use repl_names::{NamesFault, StandbyList, parse_names, print_names};
use std::alloc::{AllocError, Global};

/// Prints the spelling of the standby list that the text says, on one line. Reads no input.
///
/// Where the text is no list, `Refused` has the place of its fault, in bytes from 0, and nothing is written; a list whose
/// spelling is too long is wrong after its last byte. Takes memory for the list and for the line.
pub fn names<K: Sink>(alloc: Global, text: &[u8], out: &mut K) -> Converted
    ensures { Named text.now result (K.sink out.old) (K.sink out.new) }
{
    print_list(alloc, text, out)
}

fn print_list<K: Sink>(alloc: Global, text: &[u8], out: &mut K) -> Converted
    ensures ends { NamesEnd text.now result (K.sink out.old) (K.sink out.new) }
    ensures write_fault { RoseExactly (is_write_fault result) (K.sink out.old).faults (K.sink out.new).faults }
{
    let line = match line_of_text(alloc, text) {
        Ok(line) => line,
        Err(Refused::At(place)) => return Converted::Refused(place),
        Err(Refused::Memory) => return Converted::Memory,
    };
    match write_all(out, &line) {
        Sent::All => Converted::Done,
        Sent::Failed => Converted::WriteFault,
        Sent::Memory => Converted::Memory,
    }
}

/// The line of the list that the text says, or why there is none.
fn line_of_text(alloc: Global, text: &[u8]) -> Result<Vec<u8>, Refused>
    ensures ok { IfOk result (λ line. (list : Listing) × SaysList text.now list × (line.items ≡ names_line list)) }
    ensures err { IfErr result (λ end. (end ≡ refused.Memory) ⊎ ((place : ℕ) × (end ≡ refused.At place) × IsNoList text.now place)) }
{
    let list = match parse_names(alloc, text) {
        Ok(list) => list,
        Err(fault) => return Err(refusal(text, fault)),
    };
    Ok(line(alloc, &list)?)
}

/// The refusal of a text that is no list. One whose list is too long is wrong after its last byte, since the
/// length is judged over all of it.
fn refusal(text: &[u8], fault: NamesFault) -> Refused
    ensures { ((fault ≡ names_fault.Memory) × (result ≡ refused.Memory)) ⊎
        ((place : ℕ) × (result ≡ refused.At place) × IsPlace text.now fault place) }
{
    match fault {
        NamesFault::Syntax(place)
        | NamesFault::OpenQuote(place)
        | NamesFault::Zero(place)
        | NamesFault::TooLarge(place) => Refused::At(place),
        NamesFault::TooLong { .. } => Refused::At(text.len() as u64),
        NamesFault::Memory => Refused::Memory,
    }
}

/// The list's spelling and a line feed.
fn line(alloc: Global, list: &StandbyList) -> Result<Vec<u8>, AllocError>
    ensures { IfOk result (λ line. line.items ≡ names_line list.now) }
{
    let mut line = print_names(alloc, list)?;
    line.push(b'\n')?;
    Ok(line)
}
