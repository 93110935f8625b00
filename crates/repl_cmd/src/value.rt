//! What tokens mean where the grammar wants a name, a number, a position or a value.
ghost use Rattle.std.specs.Prelude.{◌≡◌, ◌↔◌, ℕ, true, Bool, All, MatchOption, IfOk, IsTrue, List, bytes_eq, map};
ghost use Rattle.std.specs.Char.{to_ascii_lowercase, is_ascii_digit};
ghost use Rattle.repl_names.specs.declared.setting.Setting.{Setting};
ghost use Rattle.repl_token.specs.Token.{Lowers};
ghost use Rattle.repl_cmd.specs.Command.{IsKeyword, IsNaming, IsJudged, IsValue, IsSlot, IsParameter, IsPosition, IsNumber, IsFlag, IsSetting, IsBody};

use crate::name::{ParameterName, SlotName, lowered};
use crate::token::{Kind, Token};
use bytes::Bytes;
use hex::FromHexError;
use repl_lsn::Lsn;
use repl_names::Setting;
use repl_token::saturating_value;
use std::alloc::{AllocError, Global};

impl Token {
    /// Whether it is this keyword, which is given in small letters.
    pub(crate) fn is_keyword(&self, word: &[u8]) -> bool
        requires { map to_ascii_lowercase word.now ≡ word.now }
        ensures { IsTrue result ↔ IsKeyword word.now self.now }
    {
        self.kind == Kind::Word && self.says(word)
    }

    /// Whether it says this word, which is given in small letters.
    pub(crate) fn says(&self, word: &[u8]) -> bool
        requires { map to_ascii_lowercase word.now ≡ word.now }
        ensures test { IsTrue result ↔ Lowers self.now.text word.now }
        ensures value { result ≡ bytes_eq (map to_ascii_lowercase self.now.text) word.now }
    {
        self.text.eq_ignore_ascii_case(word)
    }

    /// Whether it is a word or a name in quotes.
    pub(crate) fn is_naming(&self) -> bool
        ensures { IsTrue result ↔ IsNaming self.now }
    {
        matches!(self.kind, Kind::Word | Kind::Name)
    }

    /// Whether it is a word or a position.
    pub(crate) fn is_judged(&self) -> bool
        ensures { IsTrue result ↔ IsJudged self.now }
    {
        matches!(self.kind, Kind::Word | Kind::Position)
    }

    /// Whether it is a word or a text in quotes.
    fn is_value(&self) -> bool
        ensures { IsTrue result ↔ IsValue self.now }
    {
        matches!(self.kind, Kind::Word | Kind::Text)
    }

    /// The slot's name that it is. No byte is copied.
    pub(crate) fn slot_name(self) -> Option<SlotName>
        ensures { MatchOption result ((name : List ℕ) → ¬ IsSlot name self) (λ name. IsSlot name self) }
    {
        match self.kind {
            Kind::Word => SlotName::new(lowered(self.text)),
            Kind::Name => SlotName::new(self.text),
            _ => None,
        }
    }

    /// The parameter's name that it is. No byte is copied.
    pub(crate) fn parameter(self) -> Option<ParameterName>
        ensures { MatchOption result ((name : List ℕ) → ¬ IsParameter name self) (λ name. IsParameter name self) }
    {
        if self.is_naming() {
            ParameterName::new(self.text)
        } else {
            None
        }
    }

    /// The position that it is.
    pub(crate) fn position(&self) -> Option<Lsn>
        ensures { MatchOption result ((at : ℕ) → ¬ IsPosition at self.now) (λ at. IsPosition at self.now) }
    {
        match self.kind {
            Kind::Position => Lsn::parse(&self.text).ok(),
            _ => None,
        }
    }

    /// The number that it is, which is not below the least.
    pub(crate) fn number(&self, least: u32) -> Option<u32>
        ensures { MatchOption result ((n : ℕ) → ¬ IsNumber least n self.now) (λ n. IsNumber least n self.now) }
    {
        if self.kind != Kind::Word || !all_digits(&self.text) {
            return None;
        }
        let value = u32::try_from(saturating_value(&self.text)).ok()?;
        (least <= value).then_some(value)
    }

    /// What it says of a switch: `true`, `on` or 1, or `false`, `off` or 0.
    pub(crate) fn flag(&self) -> Option<bool>
        ensures { MatchOption result ((b : Bool) → ¬ IsFlag b self.now) (λ b. IsFlag b self.now) }
    {
        if !self.is_value() {
            return None;
        }
        if self.says(b"true") || self.says(b"on") || self.says(b"1") {
            return Some(true);
        }
        (self.says(b"false") || self.says(b"off") || self.says(b"0")).then_some(false)
    }

    /// The value of `synchronous_commit` that it is.
    pub(crate) fn setting(&self) -> Option<Setting>
        ensures { MatchOption result ((v : Setting) → ¬ IsSetting v self.now) (λ v. IsSetting v self.now) }
    {
        if !self.is_value() {
            return None;
        }
        Setting::from_word(self.text.as_slice())
    }

    /// The bytes whose hexadecimal digits it quotes. Takes memory for them.
    pub(crate) fn body(&self, alloc: Global) -> Result<Option<Bytes>, AllocError>
        ensures { IfOk result (λ found. MatchOption found ((bytes : List ℕ) → ¬ IsBody bytes self.now) (λ bytes. IsBody bytes self.now)) }
    {
        if self.kind != Kind::Text {
            return Ok(None);
        }
        match hex::decode(alloc, self.text.as_slice()) {
            Ok(bytes) => Ok(Some(Bytes::from_vec(bytes)?)),
            Err(FromHexError::OutOfMemory) => Err(AllocError),
            Err(_) => Ok(None),
        }
    }
}

/// Whether all the bytes are digits.
fn all_digits(text: &[u8]) -> bool
    ensures { IsTrue result ↔ All (λ c. is_ascii_digit c ≡ true) text.now }
{
    text.iter().all(|c| c.is_ascii_digit())
}
