ghost use Rattle.std.specs.Prelude.{◌≡◌, ℕ, ◌↔◌, length, IsTrue, IsSome, IfSome, IfOk, ◌==◌};
ghost use Rattle.std.specs.Cmp.Lexicographic.{pointwise};
ghost use Rattle.std.specs.Cmp.Rules.{comparing};
ghost use Rattle.std.proofs.Common.{rules};
ghost use Rattle.repl_text.specs.Text.{IsText, is_text_by_test};

use std::alloc::{AllocError, Global};
use std::marker::Model;

/// Bytes without a zero byte: a string of the frontend/backend protocol (PostgreSQL 17 manual, section
/// "Message Data Types").
#[derive(Debug, Drop)]
pub struct Text {
    bytes: Vec<u8>,
}

impl Model for Text {
    ghost use Rattle.std.specs.Prelude.{ℕ, List};

    ghost Value = { List ℕ };

    ghost use Rattle.repl_text.specs.Text.{IsText};

    ghost view = { λ t. t.bytes.items };

    ghost invariant = { λ t. IsText t.bytes.items };
}

/// Texts are equal where their bytes are.
impl PartialEq for Text {
    ghost eq = { pointwise ◌==◌ };

    ghost laws = { Prim.search (comparing, rules) };

    fn eq(&self, other: &Text) -> bool
        ensures { IsTrue result ↔ (self.now ≡ other.now) }
    {
        self.as_slice() == other.as_slice()
    }
}

impl Eq for Text {
    ghost laws = { Prim.search (comparing, rules) };
}

/// Whether the bytes hold no zero byte.
pub fn is_text(bytes: &[u8]) -> bool
    ensures { IsTrue result ↔ IsText bytes.now }
{
    bytes.iter().all(|b| *b != 0)
}

impl Text {
    /// The text of these bytes, which are not copied, or `None` exactly where a zero byte stands in them.
    pub fn new(bytes: Vec<u8>) -> Option<Text>
        ensures made { IfSome result (λ text. text ≡ bytes.items) }
        ensures taken { IsSome result ↔ IsText bytes.items }
    {
        if is_text(&bytes) {
            Some(Text { bytes })
        } else {
            None
        }
    }

    /// A copy of these bytes as a text. Takes memory for them.
    pub fn copied(alloc: Global, bytes: &[u8]) -> Result<Text, AllocError>
        requires { IsText bytes.now }
        ensures { IfOk result (λ text. text ≡ bytes.now) }
    {
        Ok(Text {
            bytes: Vec::from_slice(alloc, bytes)?,
        })
    }

    /// The text of a literal, in which no zero byte stands. Takes memory for it.
    pub fn literal(alloc: Global, text: &str) -> Result<Text, AllocError>
        requires { IsTrue (is_text_by_test text.now) }
        ensures made { IfOk result (λ made. made ≡ text.now) }
        ensures text { IsText text.now }
    {
        Text::copied(alloc, text.as_bytes())
    }

    /// The bytes.
    pub fn as_slice(&self) -> &[u8]
        ensures value { result.now ≡ self.now }
        ensures text { IsText self.now }
    {
        &self.bytes
    }

    /// The bytes, which are not copied.
    pub fn into_vec(self) -> Vec<u8>
        ensures { result.items ≡ self }
    {
        self.bytes
    }

    /// How many bytes it has.
    pub fn len(&self) -> usize
        ensures { result ≡ length self.now }
    {
        self.bytes.len()
    }

    /// Whether it has none.
    pub fn is_empty(&self) -> bool
        ensures { result ≡ (length self.now == 0) }
    {
        self.bytes.is_empty()
    }
}
