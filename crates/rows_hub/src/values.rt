//! Values of events, as words say them.
use bytes::Bytes;
use repl_lsn::{Lsn, Tli};
use repl_names::{Mode, StandbyList, parse_names};
use repl_record::RecordIn;
use repl_sync::FeedbackValue;
use repl_text::Text;
use rows_table::{Miss, number, short, text};
use std::alloc::Global;

/// A timeline by its number.
pub fn timeline(word: &[u8]) -> Result<Tli, Miss> {
    Tli::new(short(word)?).ok_or(Miss::Words)
}

/// A position by its number.
pub fn position(word: &[u8]) -> Result<Lsn, Miss> {
    Ok(Lsn(number(word)?))
}

/// The name of a slot or of a standby.
pub fn name(alloc: Global, word: &[u8]) -> Result<Text, Miss> {
    Text::new(word.to_vec(alloc)?).ok_or(Miss::Words)
}

/// Which of two words it is: `true` for the first.
pub fn choice(word: &[u8], first: &str, second: &str) -> Result<bool, Miss> {
    let word = text(word)?;
    if word == first {
        return Ok(true);
    }
    if word == second {
        return Ok(false);
    }
    Err(Miss::Words)
}

/// A record whose body has so many bytes, each its place's remainder by 256.
pub fn record(alloc: Global, length: u64) -> Result<RecordIn, Miss> {
    let mut body = Vec::new(alloc);
    for place in 0..length {
        body.push((place % 256) as u8)?;
    }
    Ok(RecordIn {
        xid: 0,
        info: 0,
        rmid: 0,
        body: Bytes::from_vec(body)?,
    })
}

/// What of the reports counts.
pub fn mode(word: &[u8]) -> Result<Mode, Miss> {
    match text(word)? {
        "write" => Ok(Mode::Write),
        "flush" => Ok(Mode::Flush),
        "apply" => Ok(Mode::Apply),
        _ => Err(Miss::Words),
    }
}

/// The list of standbys that a text says.
pub fn list(alloc: Global, text: &[u8]) -> Result<StandbyList, Miss> {
    parse_names(alloc, text).ok().ok_or(Miss::Words)
}

/// What a standby tells whose oldest transaction has this number.
pub fn told(xmin: u32) -> FeedbackValue {
    FeedbackValue {
        clock: 0,
        xmin,
        epoch: 0,
        catalog_xmin: 0,
        catalog_epoch: 0,
    }
}
