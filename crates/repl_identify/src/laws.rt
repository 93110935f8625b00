ghost use Rattle.std.specs.Prelude.{◌≡◌, ℕ, List};
ghost use Rattle.repl_identify.specs.Session.{IsSession, IsNoSessionAt};

/// An input of `identify` is a session with one number of requests and of questions, or it is refused at one place.
pub fn one_session()
    ensures one { (input : List ℕ) (a b c d : ℕ) → IsSession input a b → IsSession input c d → (a ≡ c) × (b ≡ d) }
    ensures apart { (input : List ℕ) (requests questions place : ℕ) → IsSession input requests questions → ¬ IsNoSessionAt input place }
    ensures place { (input : List ℕ) (a b : ℕ) → IsNoSessionAt input a → IsNoSessionAt input b → a ≡ b }
{}
