//! The bytes of an instruction as a source over a bus, and the operation that they spell.
ghost use Rattle.std.specs.Prelude.{◌≡◌, false};
ghost use Rattle.m386_base.specs.Phrase.{Performs, it};
ghost use Rattle.m386_step.specs.Code.{decode_phrase};

use crate::fetch::{Reader, next_byte};
use m386_base::bus::Bus;
use m386_base::fault::Break;
use m386_decode::decode::decode;
use m386_decode::decoded::Decoded;
use m386_decode::source::ByteSource;

/// The code behind a reader, which is fetched over a bus as it is needed. No newer row counts.
#[derive(Drop)]
struct Code<'a, B: Bus> {
    bus: &'a mut B,
    reader: Reader,
    ghost free: { (B.view bus.now).kept ≡ false },
}

impl<'a, B: Bus> ByteSource for Code<'a, B> {
    ghost use Rattle.std.specs.Prelude.{◌≡◌, false, refl};
    ghost use Rattle.std.proofs.Common.{◌∙◌};
    ghost use Rattle.m386_base.specs.Phrase.{BreaksOff};
    ghost use Rattle.m386_step.specs.Fetch.{byte_phrase};
    ghost use Rattle.m386_step.specs.Fetched.{Gives, gives_nothing, gives_more};

    ghost counts_newer = { λ s. false };

    ghost gave = { λ s t bytes. Gives s.reader (B.view s.bus.now) bytes t.reader (B.view t.bus.now) × (t.bus.ghost_name ≡ s.bus.ghost_name) };

    ghost broke = { λ s t b. BreaksOff (byte_phrase s.reader) (B.view s.bus.now) (B.view t.bus.now) b × (t.bus.ghost_name ≡ s.bus.ghost_name) };

    ghost gave_nothing = { λ s. (gives_nothing s.reader (B.view s.bus.now), refl) };

    ghost gave_more = { λ s t u bytes more first then. (gives_more s.reader t.reader u.reader (B.view s.bus.now) (B.view t.bus.now) (B.view u.bus.now) bytes more first.0 then.0, then.1 ∙ first.1) };

    #[tactic(auto, using(crate::proofs::Fetching::gives_one))]
    fn next(&mut self) -> Result<u8, Break> {
        next_byte(&mut self.reader, self.bus)
    }

    fn newer(&self) -> bool {
        false
    }
}

/// The operation that the next bytes of a source spell, and their number.
fn decode_code<B: Bus>(code: &mut Code<'_, B>) -> Result<Decoded, Break>
    ensures cycles { Performs (decode_phrase code.old.reader) (B.view code.old.bus.now) (B.view code.new.bus.now) it result }
    ensures same { code.new.bus.ghost_name ≡ code.old.bus.ghost_name }
{
    decode(code)
}

/// The operation that the bytes from a reader on spell, and their number. Each byte is fetched when it is needed: #UD comes
/// behind the first byte after which no spelling begins so, and #GP(0) where a sixteenth would be needed, or one past the
/// limit of CS.
pub fn fetch_operation<B: Bus>(reader: Reader, bus: &mut B) -> Result<Decoded, Break>
    requires free { (B.view bus.old).kept ≡ false }
    ensures cycles { Performs (decode_phrase reader) (B.view bus.old) (B.view bus.new) it result }
    ensures free { (B.view bus.new).kept ≡ false }
{
    let mut code = Code { bus, reader };
    decode_code(&mut code)
}
