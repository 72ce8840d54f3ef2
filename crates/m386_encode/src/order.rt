//! The order of spellings.
ghost use Rattle.std.specs.Prelude.{◌≡◌};
ghost use Rattle.m386_encode.specs.Order.{is_less, is_before};

/// Whether the bytes of the first, compared in order, are less.
#[tactic(auto, unfolding(crate::specs::Order::is_less))]
fn less(bytes: &[u8], other: &[u8]) -> bool
    ensures { result ≡ is_less bytes.now other.now }
{
    let [byte, bytes @ ..] = bytes else {
        return false;
    };
    let [another, other @ ..] = other else {
        return false;
    };
    byte < another || byte == another && less(bytes, other)
}

/// Whether a string of bytes is shorter than another, or as long and less.
#[tactic(auto, unfolding(crate::specs::Order::is_before))]
pub fn before(bytes: &[u8], other: &[u8]) -> bool
    ensures { result ≡ is_before bytes.now other.now }
{
    bytes.len() < other.len() || bytes.len() == other.len() && less(bytes, other)
}
