//! The canonical text of a timeline's history.
ghost use Rattle.std.specs.Prelude.{◌≡◌, ◌⊎◌, ℕ, IfOk, IfErr};
ghost use Rattle.repl_lsn.specs.declared.fault.HistoryFault.TheVariants as history_fault;
ghost use Rattle.repl_lsn.specs.History.{Path, canonical};
ghost use Rattle.repl_filter.specs.declared.converter.Refused.TheVariants as refused;
ghost use Rattle.repl_print.specs.Histories.{Historied, IsAtLine, IsPrintable, IsWrong};

use repl_filter::{Converted, Converter, GATHER_LIMIT, Refused, convert};
use repl_io::{Sink, Source};
use repl_lsn::{HistoryFault, Tli, history_text, parse_history};
use std::alloc::Global;

/// Prints the canonical text of the timeline's history that the input says.
///
/// `Refused` has the line that is wrong, from 1, or 0 where the input or the canonical text is too long: more than
/// `HISTORY_LIMIT` bytes. Nothing is written then. Reads one byte more than that at most, and takes memory for the input, the
/// history and its text.
pub fn history<S: Source, K: Sink>(alloc: Global, own: Tli, input: &mut S, out: &mut K) -> Converted
    ensures { Historied own result (S.source input.old) (S.source input.new) (K.sink out.old) (K.sink out.new) }
{
    let printing = Printing { own };
    convert(alloc, &printing, input, out)
}

/// Histories of a timeline are printed.
#[derive(Drop)]
struct Printing {
    own: Tli,
}

impl Converter for Printing {
    ghost use Rattle.repl_filter.specs.declared.gather.TheConstants.{GATHER_LIMIT};
    ghost use Rattle.repl_lsn.specs.History.{Path, canonical};
    ghost use Rattle.repl_print.specs.Histories.{IsPrintable, IsWrong};
    ghost use Rattle.repl_print.specs.Apart.{not_wrong};

    ghost Meaning = { Path };

    ghost limit = { λ _. GATHER_LIMIT };

    ghost says = { λ p text path. IsPrintable p.own text path };

    ghost text = { λ _ path. canonical path };

    ghost is_wrong = { λ p text line. IsWrong p.own text line };

    /// One more than a history's text may have, to see that it is too long.
    fn limit(&self) -> usize {
        GATHER_LIMIT
    }

    fn convert(&self, alloc: Global, bytes: &[u8]) -> Result<Vec<u8>, Refused> {
        canonical_text(alloc, self.own, bytes)
    }

    ghost apart = { λ p text path line is wrong. not_wrong p.own text path line is wrong };
}

/// The canonical text of the history that the text says, or where a text is wrong that has none.
fn canonical_text(alloc: Global, own: Tli, text: &[u8]) -> Result<Vec<u8>, Refused>
    ensures ok { IfOk result (λ printed. (path : Path) × IsPrintable own text.now path × (printed.items ≡ canonical path)) }
    ensures err { IfErr result (λ end. (end ≡ refused.Memory) ⊎ ((line : ℕ) × (end ≡ refused.At line) × IsWrong own text.now line)) }
{
    let history = match parse_history(alloc, own, text) {
        Ok(history) => history,
        Err(fault) => return Err(refusal(fault)),
    };
    match history_text(alloc, &history) {
        Ok(printed) => Ok(printed),
        Err(fault) => Err(refusal(fault)),
    }
}

/// The refusal of a text that is no history. What is too long is wrong at no line.
fn refusal(fault: HistoryFault) -> Refused
    ensures { ((fault ≡ history_fault.Memory) × (result ≡ refused.Memory)) ⊎ ((line : ℕ) × (result ≡ refused.At line) × IsAtLine fault line) }
{
    match fault {
        HistoryFault::TooLong { .. } => Refused::At(0),
        HistoryFault::NotNumber(line)
        | HistoryFault::NotSwitch(line)
        | HistoryFault::NotIncreasing(line)
        | HistoryFault::NotBelowOwn(line)
        | HistoryFault::SwitchFalls(line) => Refused::At(line),
        HistoryFault::Memory => Refused::Memory,
    }
}
