//! What an input is converted by.
use std::alloc::{AllocError, Global};

/// Why an input is not converted.
#[derive(Clone, Copy, Debug, PartialEq, Eq)]
pub enum Refused {
    /// It is wrong here.
    At(u64),
    /// There is no memory.
    Memory,
}

impl From<AllocError> for Refused {
    ghost use Rattle.std.specs.Prelude.{◌≡◌};
    ghost use Rattle.repl_filter.specs.declared.converter.Refused.TheVariants.{Memory};

    ghost from_gives = { λ _ e. e ≡ Memory };

    fn from(_error: AllocError) -> Refused {
        Refused::Memory
    }
}

/// What an input says, and the text that is written for it.
///
/// An input that says something is refused nowhere (`apart`), so what callers rely on is that the inputs that say something
/// are converted, and that the place of a refusal means what `is_wrong` says.
pub trait Converter {
    ghost use Rattle.std.specs.Prelude.{◌≡◌, ◌≤◌, ℕ, List, Err, IfOk};
    ghost use Rattle.repl_filter.specs.declared.converter.Refused.TheVariants as refused;
    ghost use Rattle.repl_filter.specs.declared.gather.TheConstants.{GATHER_LIMIT};

    /// What an input may mean.
    ghost Meaning: { Type 0 };

    ghost limit: { Self → ℕ };

    /// The bytes say this.
    ghost says: { Self → List ℕ → Meaning → Type 0 };

    /// What is written for it.
    ghost text: { Self → Meaning → List ℕ };

    /// The bytes are refused at this place.
    ghost is_wrong: { Self → List ℕ → ℕ → Type 0 };

    /// How many bytes of an input are read at most. An input that has more is judged by so many of its first bytes.
    fn limit(&self) -> usize
        ensures value { result ≡ limit self.now }
        ensures few { result ≤ GATHER_LIMIT };

    /// The text for what the bytes say, or where they are wrong.
    fn convert(&self, alloc: Global, bytes: &[u8]) -> Result<Vec<u8>, Refused>
        ensures converted { IfOk result (λ made. (x : Meaning) × says self.now bytes.now x × (made.items ≡ text self.now x)) }
        ensures refused { (place : ℕ) → result ≡ Err (refused.At place) → is_wrong self.now bytes.now place };

    // What says something is not wrong.
    ghost apart: { (c : Self) (bytes : List ℕ) (x : Meaning) (place : ℕ) → says c bytes x → is_wrong c bytes place → ⊥ };
}
