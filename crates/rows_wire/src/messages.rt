//! Messages in words, and how they are spelled on the wire.
use crate::server_words::{back, error_fields};
use bytes::Bytes;
use repl_message::{
    Back, EncodeFault, Front, Pair, Pairs, Startup, Text, encode_back, encode_front, encode_startup,
};
use rows_table::{Answer, Call, Miss, debug, joined, said, short, text};
use std::alloc::Global;

/// The message is spelled after the bytes of the first word.
pub fn answer(alloc: Global, call: &Call) -> Answer {
    if let Some([before, kind, words @ ..]) = call.words("startup") {
        return spelled_startup(alloc, before, kind, words);
    }
    if let Some([before, kind, words @ ..]) = call.words("front") {
        return spelled_front(alloc, before, kind, words);
    }
    if let Some([before, kind, words @ ..]) = call.words("back") {
        return spelled_back(alloc, before, kind, words);
    }
    if let Some([code, words @ ..]) = call.words("field") {
        return field(alloc, code, words);
    }
    if let Some([name, words @ ..]) = call.words("value") {
        return value(alloc, name, words);
    }
    Err(Miss::Call)
}

/// The text of the first of these fields of an error that has this code.
fn field(alloc: Global, code: &[u8], words: &[Vec<u8>]) -> Answer {
    let [code] = code else {
        return Err(Miss::Words);
    };
    let fields = error_fields(alloc, words)?;
    found(alloc, fields.text_of(*code))
}

/// The value of the last of these parameters that has this name.
fn value(alloc: Global, name: &[u8], words: &[Vec<u8>]) -> Answer {
    let pairs = pairs(alloc, words)?;
    found(alloc, pairs.value_of(name))
}

fn found(alloc: Global, text: Option<&Text>) -> Answer {
    match text {
        Some(text) => Ok(text.as_slice().to_vec(alloc)?),
        None => said(alloc, "none"),
    }
}

fn spelled_startup(alloc: Global, before: &Vec<u8>, kind: &[u8], words: &[Vec<u8>]) -> Answer {
    let message = startup(alloc, &Call::new(text(kind)?, words))?;
    let mut out = before.clone()?;
    spelled(alloc, encode_startup(&message, &mut out), out)
}

fn spelled_front(alloc: Global, before: &Vec<u8>, kind: &[u8], words: &[Vec<u8>]) -> Answer {
    let message = front(&Call::new(text(kind)?, words))?;
    let mut out = before.clone()?;
    spelled(alloc, encode_front(&message, &mut out), out)
}

fn spelled_back(alloc: Global, before: &Vec<u8>, kind: &[u8], words: &[Vec<u8>]) -> Answer {
    let message = back(alloc, &Call::new(text(kind)?, words))?;
    let mut out = before.clone()?;
    spelled(alloc, encode_back(&message, &mut out), out)
}

/// What is spelled, after the fault where there is one.
fn spelled(alloc: Global, done: Result<(), EncodeFault>, out: Vec<u8>) -> Answer {
    match done {
        Ok(()) => Ok(out),
        Err(fault) => joined(alloc, &[&debug(alloc, &fault)?, &out]),
    }
}

/// A text of the protocol.
pub fn text_of(word: &Vec<u8>) -> Result<Text, Miss> {
    Text::new(word.clone()?).ok_or(Miss::Words)
}

/// Bytes that are shared.
pub fn bytes_of(word: &Vec<u8>) -> Result<Bytes, Miss> {
    Ok(Bytes::from_vec(word.clone()?)?)
}

/// What a client sends first.
fn startup(alloc: Global, call: &Call) -> Result<Startup, Miss> {
    if let Some(words) = call.words("params") {
        return Ok(Startup::Params(pairs(alloc, words)?));
    }
    if let Some([]) = call.words("ssl") {
        return Ok(Startup::Ssl);
    }
    if let Some([]) = call.words("gss") {
        return Ok(Startup::Gss);
    }
    if let Some([pid, key]) = call.words("cancel") {
        return cancel(pid, key);
    }
    Err(Miss::Words)
}

fn pairs(alloc: Global, words: &[Vec<u8>]) -> Result<Pairs, Miss> {
    let mut pairs = Vec::new(alloc);
    for words in words.chunks(2) {
        pairs.push(pair(words)?)?;
    }
    Pairs::new(pairs).ok_or(Miss::Words)
}

fn pair(words: &[Vec<u8>]) -> Result<Pair, Miss> {
    let [name, value] = words else {
        return Err(Miss::Words);
    };
    Ok(Pair {
        name: text_of(name)?,
        value: text_of(value)?,
    })
}

fn cancel(pid: &[u8], key: &[u8]) -> Result<Startup, Miss> {
    Ok(Startup::Cancel {
        pid: short(pid)?,
        key: short(key)?,
    })
}

/// What a client sends then.
fn front(call: &Call) -> Result<Front, Miss> {
    if let Some([text]) = call.words("query") {
        return Ok(Front::Query(text_of(text)?));
    }
    if let Some([bytes]) = call.words("copy_data") {
        return Ok(Front::CopyData(bytes_of(bytes)?));
    }
    if let Some([]) = call.words("copy_done") {
        return Ok(Front::CopyDone);
    }
    if let Some([text]) = call.words("copy_fail") {
        return Ok(Front::CopyFail(text_of(text)?));
    }
    if let Some([]) = call.words("terminate") {
        return Ok(Front::Terminate);
    }
    Err(Miss::Words)
}

/// The words of a startup packet.
pub fn startup_words(alloc: Global, message: &Startup) -> Answer {
    match message {
        Startup::Params(pairs) => {
            let mut out = b"params".to_vec(alloc)?;
            for pair in pairs.as_slice() {
                out = joined(alloc, &[&out, pair.name.as_slice(), pair.value.as_slice()])?;
            }
            Ok(out)
        }
        Startup::Ssl => Ok(b"ssl".to_vec(alloc)?),
        Startup::Gss => Ok(b"gss".to_vec(alloc)?),
        Startup::Cancel { pid, key } => {
            Ok(format!(in alloc; "cancel {pid} {key}")?.into_bytes())
        }
    }
}

/// The words of a message of a client.
pub fn front_words(alloc: Global, message: &Front) -> Answer {
    match message {
        Front::Query(text) => joined(alloc, &[b"query", text.as_slice()]),
        Front::CopyData(bytes) => joined(alloc, &[b"copy_data", bytes.as_slice()]),
        Front::CopyDone => Ok(b"copy_done".to_vec(alloc)?),
        Front::CopyFail(text) => joined(alloc, &[b"copy_fail", text.as_slice()]),
        Front::Terminate => Ok(b"terminate".to_vec(alloc)?),
    }
}
