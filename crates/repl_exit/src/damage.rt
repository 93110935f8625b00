//! What is wrong with a store.
ghost use Rattle.std.specs.Prelude.{Some};

use repl_lsn::{HistoryFault, Lsn};
use repl_page::PageFault;
use repl_record::WalkReason;
use std::fmt;

/// Why the files of a store are not those of one.
#[derive(Clone, Copy, Debug, PartialEq, Eq)]
pub enum DamageReason {
    /// The file is not there.
    Missing,
    /// The file is too short.
    Short,
    /// The control's field there is wrong.
    Control,
    /// The file of slots is wrong there.
    Slots,
    /// The history is wrong.
    History(HistoryFault),
    /// The log's bytes there are no records.
    Bad(WalkReason),
}

/// The reason's name, and its values after it.
impl fmt::Display for DamageReason {
    ghost use Rattle.std.specs.Prelude.{Some};
    ghost use Rattle.repl_exit.specs.Status.{damage_words};

    ghost output = { λ reason. Some (damage_words reason) };

    fn fmt<W: fmt::Write>(&self, f: &mut fmt::Formatter<W>) -> fmt::Result {
        match self {
            DamageReason::Missing => write!(f, "Missing"),
            DamageReason::Short => write!(f, "Short"),
            DamageReason::Control => write!(f, "Control"),
            DamageReason::Slots => write!(f, "Slots"),
            DamageReason::History(fault) => write!(f, "History {}", HistoryWords(*fault)),
            DamageReason::Bad(reason) => write!(f, "Bad {}", WalkWords(*reason)),
        }
    }
}

/// A history's fault as its name and values.
#[derive(Clone, Copy)]
struct HistoryWords(HistoryFault);

impl fmt::Display for HistoryWords {
    ghost use Rattle.std.specs.Prelude.{Some};
    ghost use Rattle.repl_exit.specs.Status.{history_words};

    ghost output = { λ words. Some (history_words words.0) };

    fn fmt<W: fmt::Write>(&self, f: &mut fmt::Formatter<W>) -> fmt::Result {
        match self.0 {
            HistoryFault::TooLong { have } => write!(f, "TooLong {have}"),
            HistoryFault::NotNumber(line) => write!(f, "NotNumber {line}"),
            HistoryFault::NotSwitch(line) => write!(f, "NotSwitch {line}"),
            HistoryFault::NotIncreasing(line) => write!(f, "NotIncreasing {line}"),
            HistoryFault::NotBelowOwn(line) => write!(f, "NotBelowOwn {line}"),
            HistoryFault::SwitchFalls(line) => write!(f, "SwitchFalls {line}"),
            HistoryFault::Memory => write!(f, "Memory"),
        }
    }
}

/// A walker's reason as its name and values.
#[derive(Clone, Copy)]
struct WalkWords(WalkReason);

impl fmt::Display for WalkWords {
    ghost use Rattle.std.specs.Prelude.{Some};
    ghost use Rattle.repl_exit.specs.Status.{walk_words};

    ghost output = { λ words. Some (walk_words words.0) };

    fn fmt<W: fmt::Write>(&self, f: &mut fmt::Formatter<W>) -> fmt::Result {
        match self.0 {
            WalkReason::Page(fault) => write!(f, "Page {}", PageWords(fault)),
            WalkReason::Length { found } => write!(f, "Length {found}"),
            WalkReason::Prev { found, expected } => write!(f, "Prev {found} {expected}"),
            WalkReason::Reserved => write!(f, "Reserved"),
            WalkReason::Checksum { found, computed } => write!(f, "Checksum {found} {computed}"),
            WalkReason::Padding => write!(f, "Padding"),
        }
    }
}

/// The fault of a page's header as its name and values. Of these an address is a position of the log.
#[derive(Clone, Copy)]
struct PageWords(PageFault);

impl fmt::Display for PageWords {
    ghost use Rattle.std.specs.Prelude.{Some};
    ghost use Rattle.repl_exit.specs.Status.{page_words};

    ghost output = { λ words. Some (page_words words.0) };

    fn fmt<W: fmt::Write>(&self, f: &mut fmt::Formatter<W>) -> fmt::Result {
        let PageWords(fault) = *self;
        match fault {
            PageFault::Magic { found, expected } => write!(f, "Magic {found} {expected}"),
            PageFault::Info { found, expected } => write!(f, "Info {found} {expected}"),
            PageFault::Timeline { found, expected } => write!(f, "Timeline {found} {expected}"),
            PageFault::Address { found, expected } => {
                write!(f, "Address {} {}", Lsn(found), Lsn(expected))
            }
            PageFault::RemLen { found, expected } => write!(f, "RemLen {found} {expected}"),
            PageFault::SysId { found, expected } => write!(f, "SysId {found} {expected}"),
            PageFault::SegSize { found, expected } => write!(f, "SegSize {found} {expected}"),
            PageFault::BlockSize { found, expected } => write!(f, "BlockSize {found} {expected}"),
        }
    }
}
