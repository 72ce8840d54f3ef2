//! The operation that a source gives next.
ghost use Rattle.std.specs.Prelude.{◌≡◌, ◌≤◌, ◌<◌, ℕ, List, ◌∷◌, [], ◌++◌, IfOk, IfErr, IfSome, None, length, Ok, Err, ◌⊎◌};
ghost use Rattle.m386_opmap.specs.Readings.{reading_of};
ghost use Rattle.m386_opmap.specs.Sure.{IsSure};
ghost use Rattle.m386_decode.specs.Decoding.{WantsMore, Concludes, Concluded, BrokenOff};

use crate::decoded::Decoded;
use crate::source::ByteSource;
use arrayvec::ArrayVec;
use m386_base::exception::{general_protection, undefined_opcode};
use m386_base::fault::Break;
use m386_opmap::outcome::Reading;
use m386_opmap::reading::reading_sure;

/// The most bytes that an instruction has (PRM 9.8.13).
const MOST: usize = 15;

/// What the decoder answers where these bytes came, of which all but the last wanted more, and surely that many; `None` where
/// they want more too. They are read only where they may be enough.
fn conclusion(bytes: &[u8], lack: &mut usize) -> Option<Result<Decoded, Break>>
    requires few { length bytes.now ≤ 15 }
    requires before { (front : List ℕ) × (last : ℕ) × (bytes.now ≡ front ++ last ∷ []) × WantsMore front × IsSure reading_of front lack.old }
    ensures some { IfSome result (λ answer. Concludes bytes.now answer) }
    ensures none { result ≡ None → WantsMore bytes.now }
    ensures sure { result ≡ None → IsSure reading_of bytes.now lack.new }
{
    if 1 < *lack {
        *lack -= 1;
        return None;
    }
    match reading_sure(bytes, lack) {
        Reading::Spelled { op, len } => Some(Ok(Decoded { op, len: len as u8 })),
        Reading::Refused { .. } => Some(Err(Break::Fault(undefined_opcode()))),
        Reading::More => None,
    }
}

/// The operation that the bytes of a source spell next, and how many bytes that are. It takes no byte behind it.
///
/// Of its own it answers #UD after the first byte after which no spelling begins so, and #GP(0) after 15 bytes that begin
/// a spelling and have none, where it would ask for a sixteenth. Every other break is one that the source answered in this
/// call, behind fewer than 15 bytes that begin a spelling and have none.
pub fn decode<S: ByteSource>(source: &mut S) -> Result<Decoded, Break>
    ensures ok { IfOk result (λ d. Concluded S.gave source.old source.new (Ok d)) }
    ensures err { IfErr result (λ b. Concluded S.gave source.old source.new (Err b) ⊎ BrokenOff S.gave S.broke source.old source.new b) }
    ensures newer { S.counts_newer source.new ≡ S.counts_newer source.old }
{
    let mut bytes = ArrayVec::<u8, MOST>::new();
    let mut lack = 0;
    while !bytes.is_full() {
        bytes.push(source.next()?);
        if let Some(answer) = conclusion(bytes.as_slice(), &mut lack) {
            return answer;
        }
    }
    Err(Break::Fault(general_protection()))
}
