//! Numbers among words.
ghost use Rattle.std.specs.Prelude.{◌≡◌, ◌≤◌};
ghost use Rattle.std.specs.Option.{ForSome};
ghost use Rattle.m386_calls.specs.Words.{number_in};

/// The most digits of a number.
const MOST_DIGITS: usize = 20;

/// A number of 1 to 20 decimal digits with no sign, at most `most`.
#[tactic(auto, using(crate::proofs::Numbers::reading))]
pub fn number(text: &[u8], most: u64) -> Option<u64>
    ensures value { result ≡ number_in most text.now }
    ensures within { ForSome result (λ n. n ≤ most) }
{
    if text.is_empty() || text.len() > MOST_DIGITS {
        return None;
    }
    let mut value: u128 = 0;
    for byte in text {
        if !byte.is_ascii_digit() {
            return None;
        }
        value = value * 10 + (*byte - b'0') as u128;
        if value > most as u128 {
            return None;
        }
    }
    Some(value as u64)
}
