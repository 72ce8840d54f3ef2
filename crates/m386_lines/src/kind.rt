//! What is wrong with a line.

/// The kinds of a faulty line. Of several that a line has, the least is told.
#[derive(Clone, Copy, Debug, PartialEq, Eq)]
pub enum AsmKind {
    /// A byte that is no printable character and no tab.
    Ascii = 1,
    /// Before the comment a byte that is in no word, and no mark or blank.
    Token,
    /// A word that begins with a digit, and is no number of up to 32 bits.
    Number,
    /// What stands in a mnemonic's place is none.
    Mnemonic,
    /// The operands are none that the mnemonic has.
    Operands,
    /// A name that no line defines.
    UnknownName,
    /// A name that an earlier line defines.
    NameTwice,
    /// A word that begins with a dot, and is no directive.
    Directive,
    /// The arguments aren't of the directive's form.
    Arguments,
    /// A header that an earlier line gives.
    HeaderTwice,
    /// The text ends without a header that it must have.
    HeaderMissing,
    /// A value outside its field or its limit.
    Range,
    /// An `.org` below the end so far.
    Overlap,
    /// A `.plan` that isn't above the one before.
    PlanOrder,
}
