//! The lexer under standby lists and commands: words, numbers, texts in quotes and signs, with blanks between them.
//!
//! A language says by a `Lexicon` what each byte is. `next_token` reads one token after another, each as long as it
//! can be, by `specs/Token.antt`. Every text has exactly one reading (`some_reading`, `one_reading`). `put_quoted`
//! prints a text in quotes, which is read back as that text.
//!
//! ```text
//! let mut at = 0;
//! while let Some((token, end)) = next_token::<ListLexicon>(alloc, text, at)? {
//!     at = end; // after the token, which stands at `token.place`
//! }
//! ```
#![tactic(auto)]

mod class;
mod digits;
mod laws;
mod lexicon;
mod quotes;
mod run;
mod token;

pub use class::Class;
pub use digits::saturating_value;
pub use laws::{one_reading, some_reading};
pub use lexicon::Lexicon;
pub use quotes::put_quoted;
pub use token::{Kind, Token, next_token};
