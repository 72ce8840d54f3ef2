//! What holds of each text, whatever the code does.
ghost use Rattle.m386_asm.specs.Laws.{LaidSomehow, LaysOutOnce, LinesHaveBytes, OperationsKeepLengths};

/// Each line has bytes, whatever its names are and wherever it begins.
pub fn lines_have_bytes()
    ensures { LinesHaveBytes }
{}

/// An instruction's bytes are as many whatever its names are, so what stands behind it has its place before they are known.
pub fn operations_keep_lengths()
    ensures { OperationsKeepLengths }
{}

/// The lines of each text can be laid.
pub fn laid_somehow()
    ensures { LaidSomehow }
{}

/// A text lays out one thing: an image, or a first faulty line with a kind.
pub fn lays_out_once()
    ensures { LaysOutOnce }
{}
