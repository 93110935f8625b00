use crate::miss::Miss;
use std::alloc::{AllocError, Global};
use std::mem;

/// A name of the table, and what it stands for.
#[derive(Drop)]
struct Named {
    name: Vec<u8>,
    value: Vec<u8>,
}

/// The names of a table.
#[derive(Drop)]
pub struct Names {
    list: Vec<Named>,
}

/// The pieces of a text between these bytes, where those are in no quotes.
pub fn pieces(alloc: Global, text: &[u8], between: u8) -> Result<Vec<Vec<u8>>, AllocError> {
    let mut all = Vec::new(alloc);
    let mut piece = Vec::new(alloc);
    let mut quoted = false;
    for byte in text {
        if *byte == b'`' {
            quoted = !quoted;
        }
        if *byte == between && !quoted {
            all.push(mem::replace(&mut piece, Vec::new(alloc)))?;
        } else {
            piece.push(*byte)?;
        }
    }
    all.push(piece)?;
    Ok(all)
}

/// The pieces of the text between pieces of blanks.
pub fn words_of(alloc: Global, text: &[u8]) -> Result<Vec<Vec<u8>>, AllocError> {
    let mut words = Vec::new(alloc);
    for piece in pieces(alloc, text, b' ')? {
        if !piece.is_empty() {
            words.push(piece)?;
        }
    }
    Ok(words)
}

impl Names {
    pub fn new(alloc: Global) -> Names {
        Names {
            list: Vec::new(alloc),
        }
    }

    /// Lets the name stand for this value from here on.
    pub fn put(&mut self, name: Vec<u8>, value: Vec<u8>) -> Result<(), AllocError> {
        self.list.push(Named { name, value })?;
        Ok(())
    }

    /// What a word stands for.
    pub fn value(&self, alloc: Global, word: &[u8]) -> Result<Vec<u8>, Miss> {
        let mut value = Vec::new(alloc);
        for part in pieces(alloc, word, b'+')?.iter() {
            self.add(alloc, part, &mut value)?;
        }
        Ok(value)
    }

    /// Puts what a part between `+` stands for after the value.
    fn add(&self, alloc: Global, part: &[u8], value: &mut Vec<u8>) -> Result<(), Miss> {
        let times = pieces(alloc, part, b'*')?;
        let (atom, count) = match times.as_slice() {
            [atom] => (self.atom(alloc, atom)?, 1),
            [atom, count] => (self.atom(alloc, atom)?, number(count)?),
            _ => return Err(Miss::Words),
        };
        for _ in 0..count {
            value.extend_from_slice(&atom)?;
        }
        Ok(())
    }

    /// What a word without `+` and `*` stands for.
    fn atom(&self, alloc: Global, text: &[u8]) -> Result<Vec<u8>, Miss> {
        match text {
            [] => Err(Miss::Words),
            [b'`', quoted @ .., b'`'] => unescaped(alloc, quoted),
            [b'x', b':', digits @ ..] => match hex::decode(alloc, digits) {
                Ok(bytes) => Ok(bytes),
                Err(_) => Err(Miss::Words),
            },
            [b'$', name @ ..] => match self
                .list
                .iter()
                .rev()
                .find(|entry| entry.name.as_slice() == name)
            {
                Some(entry) => Ok(entry.value.clone()?),
                None => Err(Miss::Words),
            },
            _ => Ok(text.to_vec(alloc)?),
        }
    }
}

/// Where the reading of a quoted text stands.
#[derive(Clone, Copy)]
enum Reading {
    Out,
    Past,
    First,
    Second(u8),
}

/// The bytes of a text with the escapes `\0`, `\t`, `\n`, `\r`, `\\` and `\xHH`.
fn unescaped(alloc: Global, text: &[u8]) -> Result<Vec<u8>, Miss> {
    let mut bytes = Vec::new(alloc);
    let mut state = Reading::Out;
    for byte in text {
        state = match state {
            Reading::Out if *byte == b'\\' => Reading::Past,
            Reading::Past if *byte == b'x' => Reading::First,
            Reading::First => Reading::Second(digit(*byte)?),
            Reading::Out => {
                bytes.push(*byte)?;
                Reading::Out
            }
            Reading::Past => {
                bytes.push(escaped(*byte)?)?;
                Reading::Out
            }
            Reading::Second(high) => {
                bytes.push(high.wrapping_mul(16).wrapping_add(digit(*byte)?))?;
                Reading::Out
            }
        };
    }
    match state {
        Reading::Out => Ok(bytes),
        _ => Err(Miss::Words),
    }
}

/// The byte that an escape of one byte stands for.
fn escaped(byte: u8) -> Result<u8, Miss> {
    match byte {
        b'0' => Ok(0),
        b't' => Ok(b'\t'),
        b'n' => Ok(b'\n'),
        b'r' => Ok(b'\r'),
        b'\\' => Ok(b'\\'),
        _ => Err(Miss::Words),
    }
}

/// The value of a hexadecimal digit.
fn digit(byte: u8) -> Result<u8, Miss> {
    match (byte as char).to_digit(16) {
        Some(value) => Ok(value as u8),
        None => Err(Miss::Words),
    }
}

/// The number that a word writes, decimal or after `0x` hexadecimal.
pub fn number(word: &[u8]) -> Result<u64, Miss> {
    let text = text(word)?;
    let read = match text.strip_prefix("0x") {
        Some(digits) => u64::from_str_radix(digits, 16),
        None => text.parse::<u64>(),
    };
    read.ok().ok_or(Miss::Words)
}

/// The same, of a number below 2^32.
pub fn short(word: &[u8]) -> Result<u32, Miss> {
    u32::try_from(number(word)?).ok().ok_or(Miss::Words)
}

/// The word as text.
pub fn text(word: &[u8]) -> Result<&str, Miss> {
    str::from_utf8(word).ok().ok_or(Miss::Words)
}
