ghost use Rattle.std.specs.Prelude.{◌↔◌, ℕ, List, IsTrue};

/// What a word in some place may be: a kind of argument, or of an option's value. `is` says which words are of a kind; at
/// least one is, so that a line goes on wherever a word of it is to come.
pub trait Kind {
    ghost is: { Self → List ℕ → Type 0 };

    /// Whether the word is of the kind.
    fn takes(&self, word: &str) -> bool
        ensures { IsTrue result ↔ is self.now word.now };

    // Each kind has a word.
    ghost some: { (kind : Self) → (word : List ℕ) × is kind word };
}
