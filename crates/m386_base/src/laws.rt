//! What is proved of the groups of an access beside the calls' own clauses.
ghost use Rattle.std.specs.Prelude.{◌≡◌, ℕ, ◌*◌, ◌%◌, ◌^◌};
ghost use Rattle.m386_base.specs.Bytes.{bytes_of};
ghost use Rattle.m386_base.specs.Split.{IsLength, IsPiece, AreRead, spread_of, gather_of, gathered, pieces, access_bytes, piece_bytes, lanes, moved, swapped, placed, written};
ghost use Rattle.m386_base.specs.declared.ask.Ask.{Ask};
ghost use Rattle.m386_base.specs.declared.ask.Space.{Space};
ghost use Rattle.m386_base.specs.declared.split.Piece.{Piece};

/// What `spread` and `gather` do with a group of an access, and with all groups of one. The function does nothing; its
/// clauses are the laws.
///
/// `spread` puts each byte of the access that stands in the group at its place there, and 0 elsewhere, so that a write of
/// it puts each byte at its own place in the space. `gather` puts each byte of the group that belongs to the access at its
/// place in the access, and 0 elsewhere. What is gathered from all groups of an access is the number whose bytes stand at
/// the access's places, and a value that was spread comes back whole.
#[tactic(auto, using(crate::proofs::Moved::spread_moves, crate::proofs::Moved::gather_moves, crate::proofs::Lanes::writes_piece, crate::proofs::Gathered::reads_access, crate::proofs::Gathered::gathers_spread))]
pub fn access_laws()
    ensures spread { (p : Piece) → IsPiece p → (value : ℕ) → spread_of p value ≡ moved (lanes p) value }
    ensures written { (p : Piece) → IsPiece p → (a : Ask) → (value : ℕ) →
        bytes_of (record a { addr = p.addr; enables = p.enables; value = spread_of p value }) ≡ written value (piece_bytes p) }
    ensures gather { (p : Piece) → IsPiece p → (value : ℕ) → gather_of p value ≡ moved (swapped (lanes p)) value }
    ensures read { (space : Space) → (addr len : ℕ) → IsLength len → (stands : ℕ → ℕ) → (read : Piece → ℕ) →
        AreRead stands read (pieces space addr len) → gathered read (pieces space addr len) ≡ placed stands (access_bytes space addr len) }
    ensures whole { (space : Space) → (addr len : ℕ) → IsLength len → (value : ℕ) →
        gathered (λ p. spread_of p value) (pieces space addr len) ≡ value % 2 ^ (8 * len) }
{}
