use crate::miss::{Answer, Miss};
use std::alloc::Global;
use std::fmt;

/// A call, and its words.
#[derive(Clone, Copy)]
pub struct Call<'a> {
    name: &'a str,
    words: &'a [Vec<u8>],
}

impl<'a> Call<'a> {
    pub fn new(name: &'a str, words: &'a [Vec<u8>]) -> Call<'a> {
        Call { name, words }
    }

    /// The words, where the call has this name.
    pub fn words(&self, name: &str) -> Option<&'a [Vec<u8>]> {
        if is(self.name, name) {
            Some(self.words)
        } else {
            None
        }
    }

    /// The same call with the words before the first `:`, and after it those that follow.
    pub fn apart(&self) -> Result<(&'a [Vec<u8>], Call<'a>), Miss> {
        let (words, past) = apart(self.words)?;
        Ok((words, Call::new(self.name, past)))
    }
}

/// Whether the word is this one.
pub fn is(word: &str, other: &str) -> bool {
    word == other
}

/// The answer of a value that is printed so.
pub fn debug<T: fmt::Debug>(alloc: Global, value: &T) -> Answer {
    Ok(format!(in alloc; "{value:?}")?.into_bytes())
}

/// The answer in these words.
pub fn said(alloc: Global, words: &str) -> Answer {
    Ok(words.as_bytes().to_vec(alloc)?)
}

/// These words, joined by blanks.
pub fn joined(alloc: Global, words: &[&[u8]]) -> Answer {
    let mut all = Vec::new(alloc);
    for (place, word) in words.iter().enumerate() {
        if place > 0 {
            all.push(b' ')?;
        }
        all.extend_from_slice(word)?;
    }
    Ok(all)
}

/// The words before the first `:`, and those after it.
pub fn apart(args: &[Vec<u8>]) -> Result<(&[Vec<u8>], &[Vec<u8>]), Miss> {
    for (place, word) in args.iter().enumerate() {
        if word.as_slice() == b":".as_slice() {
            return Ok((&args[..place], &args[place + 1..]));
        }
    }
    Err(Miss::Words)
}
