//! The tokens of a command's text.
ghost use Rattle.std.specs.Prelude.{◌≡◌};
ghost use Rattle.repl_cmd.specs.Token.{command_class};

use repl_token::{Class, Lexicon, Token, next_token};
use rows_table::{Answer, Call, Miss};
use std::alloc::Global;

/// What each byte is in a command.
struct Commands;

impl Lexicon for Commands {
    ghost class_of = { command_class };

    fn class(byte: u8) -> Class {
        match byte {
            b' ' | b'\t' | b'\n' | b'\r' => Class::Blank,
            b'a'..=b'z' | b'A'..=b'Z' | b'0'..=b'9' | b'_' | b'/' => Class::Letter,
            b'"' | b'\'' => Class::Quote,
            b'(' | b')' | b',' | b';' | b'=' => Class::Alone,
            _ => Class::Nothing,
        }
    }
}

pub fn answer(alloc: Global, call: &Call) -> Answer {
    if let Some([text]) = call.words("tokens") {
        return tokens(alloc, text);
    }
    Err(Miss::Call)
}

/// Each token, with `|` after it. A text has no more tokens than bytes.
fn tokens(alloc: Global, text: &[u8]) -> Answer {
    let mut told = Vec::new(alloc);
    let mut at = 0;
    for _ in 0..text.len() {
        if at > text.len() {
            break;
        }
        let Some((token, end)) = next_token::<Commands>(alloc, text, at)? else {
            break;
        };
        told.extend_from_slice(&shown(alloc, &token)?)?;
        at = end;
    }
    Ok(told)
}

/// The token's place, kind and text.
fn shown(alloc: Global, token: &Token) -> Answer {
    let mut told = format!(in alloc; "{} {:?} ", token.place, token.kind)?.into_bytes();
    told.extend_from_slice(&token.text)?;
    told.push(b'|')?;
    Ok(told)
}
