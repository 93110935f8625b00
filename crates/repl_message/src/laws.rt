ghost use Rattle.std.specs.Prelude.{◌≡◌, ℕ, List, ◌++◌};
ghost use Rattle.repl_message.specs.declared.startup.Startup.{Startup};
ghost use Rattle.repl_message.specs.declared.startup.Pair.{Pair};
ghost use Rattle.repl_message.specs.declared.back.ErrorField.{ErrorField};
ghost use Rattle.repl_message.specs.Lists.{HasNoField, HasNoPair, IsFirst, IsLast};
ghost use Rattle.repl_message.specs.declared.front.Front.{Front};
ghost use Rattle.repl_message.specs.declared.back.Back.{Back};
ghost use Rattle.repl_message.specs.Message.{IsStartup, IsFront, IsBack, AreMessages, startup_spelling, front_spelling, back_spelling};

/// No spelling of a startup packet is the beginning of another's.
pub fn one_startup()
    ensures { (a b : Startup) (x y : List ℕ) → IsStartup a → IsStartup b →
        startup_spelling a ++ x ≡ startup_spelling b ++ y → (a ≡ b) × (x ≡ y) }
{}

/// No spelling of a client's message is the beginning of another's.
pub fn one_front()
    ensures { (a b : Front) (x y : List ℕ) → IsFront a → IsFront b →
        front_spelling a ++ x ≡ front_spelling b ++ y → (a ≡ b) × (x ≡ y) }
{}

/// No spelling of a server's message is the beginning of another's.
pub fn one_back()
    ensures { (a b : Back) (x y : List ℕ) → IsBack a → IsBack b →
        back_spelling a ++ x ≡ back_spelling b ++ y → (a ≡ b) × (x ≡ y) }
{}

/// Bytes are the messages of a server in one way at most.
pub fn one_reading()
    ensures { (bytes : List ℕ) (a b : List Back) → AreMessages bytes a → AreMessages bytes b → a ≡ b }
{}

/// The first field with a code has one text, and it is there only where a field has the code.
pub fn one_field()
    ensures text { (code : ℕ) (fields : List ErrorField) (a b : List ℕ) → IsFirst code fields a → IsFirst code fields b → a ≡ b }
    ensures some { (code : ℕ) (fields : List ErrorField) (text : List ℕ) → IsFirst code fields text → ¬ HasNoField code fields }
{}

/// The last parameter of a name has one value, and it is there only where a parameter has the name.
pub fn one_value()
    ensures value { (name : List ℕ) (pairs : List Pair) (a b : List ℕ) → IsLast name pairs a → IsLast name pairs b → a ≡ b }
    ensures some { (name : List ℕ) (pairs : List Pair) (value : List ℕ) → IsLast name pairs value → ¬ HasNoPair name pairs }
{}
