//! Laws of the decoder's answers: behind which bytes each comes is settled by the bytes alone.
ghost use Rattle.std.specs.Prelude.{◌≡◌, ◌<◌, ℕ, List, [], ◌∷◌, ◌++◌, length, All, Result};
ghost use Rattle.m386_base.specs.declared.fault.Break.{Break};
ghost use Rattle.m386_decode.specs.declared.decoded.Decoded.{Decoded};
ghost use Rattle.m386_decode.specs.Decoding.{WantsMore, Concludes, IsAnswered};

/// An answer comes behind one front of some bytes alone, and no other comes there.
pub fn one_answer()
    ensures { (bytes rest : List ℕ) (answer other : Result Decoded Break) → Concludes bytes answer → Concludes (bytes ++ rest) other → (rest ≡ []) × (answer ≡ other) }
{}

/// Behind bytes that have an answer, fewer than 15 never want more: a source isn't asked on.
pub fn answered_wants_none()
    ensures { (bytes rest : List ℕ) (answer : Result Decoded Break) → Concludes bytes answer → WantsMore (bytes ++ rest) → length (bytes ++ rest) < 15 → ⊥ }
{}

/// Every shorter front of bytes that have an answer wants more: each of the bytes was asked for.
pub fn wants_more_before()
    ensures { (front : List ℕ) (byte : ℕ) (rest : List ℕ) (answer : Result Decoded Break) → Concludes (front ++ byte ∷ rest) answer → (length front < 15) × WantsMore front }
{}

/// Of any 15 bytes some front has an answer.
pub fn some_answer()
    ensures { (bytes : List ℕ) → length bytes ≡ 15 → All (λ b. b < 256) bytes → (answer : Result Decoded Break) × IsAnswered bytes answer }
{}
