//! What the grammar of bodies says: each function states a law of its definitions and does nothing.
ghost use Rattle.std.specs.Prelude.{◌≡◌, ℕ, ◌<◌, ◌≤◌, ◌++◌, List, length, take, get_or, Ok, Err};
ghost use Rattle.il_base.specs.declared.body.Body.{Body};
ghost use Rattle.il_base.specs.body_grammar.Bodies.{body_at};
ghost use Rattle.il_base.specs.declared.body_grammar.body.Fault.{Fault};
ghost use Rattle.il_base.specs.body_grammar.FirstFault.{IsFirstFault};
ghost use Rattle.il_base.specs.body_grammar.BodySpelling.{HasSpelling, IsSpelledBy, body_bytes};

/// Whatever spells a body is read as that body, also with other bytes after it.
pub fn spelled_body_is_read()
    ensures { (text : List ℕ) (b : Body) (rest : List ℕ) → IsSpelledBy text b → body_at (text ++ rest) ≡ Ok (b, length text) }
{}

/// What is read as a body is a spelling of it, as many bytes as the reading says.
pub fn read_body_is_spelled()
    ensures { (bs : List ℕ) (b : Body) (n : ℕ) → ((i : ℕ) → get_or bs i 0 < 256) → body_at bs ≡ Ok (b, n)
        → IsSpelledBy (take n bs) b × (n ≤ length bs) }
{}

/// What is written of a body that has a spelling is a spelling of it.
pub fn written_body_is_spelled()
    ensures { (b : Body) → HasSpelling b → IsSpelledBy (body_bytes b) b }
{}

/// What is written of a body is read again as that body, also with other bytes after it.
pub fn written_body_is_read()
    ensures { (b : Body) (rest : List ℕ) → HasSpelling b → body_at (body_bytes b ++ rest) ≡ Ok (b, length (body_bytes b)) }
{}

/// Where bytes have no body in front, the fault is at the first byte of the header that no body allows, or at the first
/// instruction that no body has there; a fault in the handler section comes after a header and a code of some body.
pub fn fault_is_first()
    ensures { (bs : List ℕ) (f : Fault) → ((i : ℕ) → get_or bs i 0 < 256) → body_at bs ≡ Err f → IsFirstFault bs f }
{}
