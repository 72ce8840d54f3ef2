//! Where the bytes of an instruction come from.
ghost use Rattle.std.specs.Prelude.{◌≡◌, ℕ, Bool, List, [], ◌∷◌, ◌++◌, IfOk, IfErr};
ghost use Rattle.m386_base.specs.declared.fault.Break.{Break as Breaks};

use m386_base::fault::Break;

/// Something that gives the bytes of an instruction, one after another.
pub trait ByteSource {
    /// Whether opcode rows count that only later processors have.
    ghost counts_newer: { Self → Bool };

    /// From the first state to the second the source gave these bytes, and no break.
    ghost gave: { Self → Self → List ℕ → Type 0 };

    /// From the first state to the second the source answered this break, and gave no byte.
    ghost broke: { Self → Self → Breaks → Type 0 };

    /// The next byte; or why there is none, where the work of getting it met an exception or was stopped.
    fn next(&mut self) -> Result<u8, Break>
        ensures gave { IfOk result (λ byte. gave self.old self.new (byte ∷ [])) }
        ensures broke { IfErr result (λ b. broke self.old self.new b) }
        ensures newer { counts_newer self.new ≡ counts_newer self.old };

    /// Whether opcode rows count that only later processors have. No row is of this kind yet.
    fn newer(&self) -> bool
        ensures { result ≡ counts_newer self.now };

    /// A source that wasn't called gave nothing.
    ghost gave_nothing: { (s : Self) → gave s s [] };

    /// Bytes, and then further ones.
    ghost gave_more: { (s t u : Self) (bytes more : List ℕ) → gave s t bytes → gave t u more → gave s u (bytes ++ more) };
}
