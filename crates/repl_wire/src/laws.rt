ghost use Rattle.std.specs.Prelude.{◌≡◌, ℕ, ◌+◌, ◌^◌, ◌<◌, ◌≤◌, List, [], ◌∷◌, ◌++◌, length, take};
ghost use Rattle.repl_message.specs.Encoding.{capped};
ghost use Rattle.std.specs.List.{concat};
ghost use Rattle.repl_message.specs.declared.startup.Startup.{Startup};
ghost use Rattle.repl_message.specs.declared.front.Front.{Front};
ghost use Rattle.repl_message.specs.declared.back.Back.{Back};
ghost use Rattle.repl_message.specs.declared.message.Phase.{Phase};
ghost use Rattle.repl_message.specs.declared.message.Message.{Message};
ghost use Rattle.repl_message.specs.Message.{startup_code, startup_body, front_body, back_body, int32, Belongs, Spells, after, spelling};
ghost use Rattle.repl_wire.specs.declared.reader.Step.{Step};
ghost use Rattle.repl_wire.specs.declared.fault.WireFault.{WireFault};
ghost use Rattle.repl_wire.specs.declared.head.Head.{Head};
ghost use Rattle.repl_wire.specs.declared.taking.Taken.{Taken};
ghost use Rattle.repl_wire.specs.Head.{head_of, EndsAt};
ghost use Rattle.repl_wire.specs.Judging.{judge};
ghost use Rattle.repl_wire.specs.Reader.{HasGiven, Reading, ReadsStream, fed};
ghost use Rattle.repl_wire.specs.Places.{startup_fields, front_fields, back_fields};

/// However a stream is cut, a reader gives the same messages, and stops with the same answer.
pub fn any_cuts()
    ensures { (r : Reading) (stream : List ℕ) (ms ns : List Message) (a b : Step) →
        ReadsStream r stream ms a → ReadsStream r stream ns b → (ms ≡ ns) × (a ≡ b) }
{}

/// What a loop over a reader keeps: a reader has given nothing at first, then one more message, or is fed one more
/// piece; and what it gives of some bytes and then of others is what it gives of all of them.
pub fn one_after_another()
    ensures nothing { (r : Reading) → r.place < 2 ^ 64 → HasGiven r [] [] r }
    ensures message { (old now new : Reading) (bytes past : List ℕ) (ms : List Message) (m : Message) → HasGiven old bytes ms now →
        Belongs now.phase m → now.rest ≡ spelling m ++ past →
        new ≡ record { phase = after now.phase m; place = capped (now.place + length (spelling m)); rest = past } →
        HasGiven old bytes (ms ++ m ∷ []) new }
    ensures piece { (old now : Reading) (bytes piece : List ℕ) (ms : List Message) → HasGiven old bytes ms now →
        HasGiven old (bytes ++ piece) ms (fed now piece) }
    ensures more { (old mid new : Reading) (bytes more : List ℕ) (ms ns : List Message) → HasGiven old bytes ms mid →
        HasGiven mid more ns new → HasGiven old (bytes ++ more) (ms ++ ns) new }
{}

/// No spelling is the beginning of another that may be sent in the same phase.
pub fn one_message()
    ensures { (p : Phase) (m n : Message) (a b x y : List ℕ) → Spells p m a → Spells p n b → a ++ x ≡ b ++ y →
        (m ≡ n) × (x ≡ y) }
{}

/// The fields of a body, one after another, are the body.
pub fn fields_spell()
    ensures startup { (m : Startup) → startup_body m ≡ int32 (startup_code m) ++ concat (startup_fields m) }
    ensures front { (m : Front) → front_body m ≡ concat (front_fields m) }
    ensures back { (m : Back) → back_body m ≡ concat (back_fields m) }
{}

/// What the head of a frame says of the judgment of the whole. It is refused for its type byte or its length field
/// exactly where its head is, and otherwise only once all of it is there, at a field of its body.
pub fn head_decides()
    ensures short { (p : Phase) (bytes : List ℕ) → head_of p bytes ≡ Head.Short → judge p bytes ≡ Taken.Short }
    ensures wrong { (p : Phase) (bytes : List ℕ) (f : WireFault) → head_of p bytes ≡ Head.Wrong f → judge p bytes ≡ Taken.Wrong f }
    ensures part { (p : Phase) (bytes : List ℕ) (size : ℕ) → head_of p bytes ≡ Head.Frame size → length bytes < size →
        judge p bytes ≡ Taken.Short }
    ensures whole { (p : Phase) (bytes : List ℕ) (size : ℕ) → head_of p bytes ≡ Head.Frame size → size ≤ length bytes →
        EndsAt size (judge p bytes) }
    // Nothing after the first five bytes counts.
    ensures first { (p : Phase) (bytes : List ℕ) → head_of p (take 5 bytes) ≡ head_of p bytes }
{}
