ghost use Rattle.std.specs.Prelude.{◌≡◌, ℕ, List};
ghost use Rattle.repl_token.specs.declared.class.Class.{Class};
ghost use Rattle.repl_token.specs.Token.{RawToken, Reads};

/// Every text has a reading, whatever its bytes are.
pub fn some_reading()
    ensures { (class_of : ℕ → Class) (at : ℕ) (bytes : List ℕ) → (tokens : List RawToken) × Reads class_of at bytes tokens }
{}

/// A text has one reading.
pub fn one_reading()
    ensures { (class_of : ℕ → Class) (at : ℕ) (bytes : List ℕ) (a b : List RawToken) →
        Reads class_of at bytes a → Reads class_of at bytes b → a ≡ b }
{}
