ghost use Rattle.std.specs.Prelude.{◌≡◌, ◌++◌, List, ℕ};
ghost use Rattle.repl_page.specs.declared.header.PageHeader.{PageHeader};
ghost use Rattle.repl_page.specs.declared.fault.PageFault.{PageFault};
ghost use Rattle.repl_page.specs.Header.{Agrees, IsPageFault, IsHeader, SayTheSame, header_bytes};

/// What is written of a header agrees with it, whatever follows.
pub fn written_agrees()
    ensures { (header : PageHeader) (rest : List ℕ) → IsHeader header → Agrees header (header_bytes header ++ rest) }
{}

/// Two headers with which the same bytes agree differ in nothing that is judged. Where one of them has a long part and
/// the other none, nothing is said of it.
pub fn one_header()
    ensures { (a b : PageHeader) (bytes : List ℕ) → Agrees a bytes → Agrees b bytes → SayTheSame a b }
{}

/// Bytes have one fault at most against a header, and none where they agree with it.
pub fn one_page_fault()
    ensures one { (header : PageHeader) (bytes : List ℕ) (a b : PageFault) → IsPageFault header bytes a → IsPageFault header bytes b → a ≡ b }
    ensures none { (header : PageHeader) (bytes : List ℕ) (fault : PageFault) → IsPageFault header bytes fault → ¬ Agrees header bytes }
{}
