//! The lines of a text.
ghost use Rattle.std.specs.Prelude.{◌≡◌, ◌∷◌, [], ◌<◌, length, IfSome, IfNone};
ghost use Rattle.m386_words.specs.Text.{lines_of};

/// The first line of a text, and what follows its line feed.
#[derive(Clone, Copy)]
pub struct Split<'a> {
    /// The line, without its line feed.
    pub line: &'a [u8],
    /// The bytes behind the line feed.
    pub rest: &'a [u8],
}

/// The first line, or None where the text is empty.
#[tactic(auto, using(crate::proofs::Feeds::feeds))]
pub fn next_line(text: &[u8]) -> Option<Split<'_>>
    ensures some { IfSome result (λ s. lines_of text.now ≡ s.line.now ∷ lines_of s.rest.now) }
    ensures less { IfSome result (λ s. length s.rest.now < length text.now) }
    ensures none { IfNone result (text.now ≡ []) }
{
    if text.is_empty() {
        return None;
    }
    for (index, &byte) in text.iter().enumerate() {
        if byte == b'\n' {
            let (_, rest) = text.split_at(index + 1);
            return Some(Split {
                line: &text[..index],
                rest,
            });
        }
    }
    Some(Split {
        line: text,
        rest: &[],
    })
}
