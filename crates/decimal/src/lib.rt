// Amounts as a clerk writes them: digits, and perhaps a point and decimals.
#![tactic(auto)]

ghost use Rattle.std.specs.Prelude.{◌≡◌, ◌*◌, ◌^◌, ◌<◌, ◌≤◌, [], length, Some, None, IfSome, IfNone, if◌then◌else◌, position, ◌==◌};
ghost use Rattle.decimal.specs.Amounts.{places, provided, is_number, number, has_point, point_at, before_point, after_point, amount};

/// How many decimals an amount may have.
#[derive(Clone, Copy)]
pub enum Decimals {
    Four = 4,
    Six = 6,
}

impl Decimals {
    pub fn count(&self) -> usize
        ensures { result ≡ places self.now }
    {
        *self as usize
    }
}

/// Where the first point stands, as the library's search finds it.
fn first_point(text: &[u8]) -> Option<usize>
    ensures { result ≡ position (λ b. b == 46) text.now }
{
    text.iter().position(|b| *b == b'.')
}

/// Where the first point stands, if there is one.
fn point_in(text: &[u8]) -> Option<usize>
    ensures value { result ≡ (if has_point text.now then Some (point_at text.now) else None) }
    ensures whole { IfNone result ((before_point text.now ≡ text.now) × (after_point text.now ≡ [])) }
{
    first_point(text)
}

/// The number that one to `most` digits write; none where the bytes are no such digits.
fn read_number(digits: &[u8], most: usize) -> Option<u64>
    requires { most ≤ 12 }
    ensures value { result ≡ provided (is_number most digits.now) (number digits.now) }
    ensures bound { IfSome result (λ n. n < 10 ^ 12) }
{
    if digits.is_empty() || digits.len() > most {
        return None;
    }
    let mut n: u64 = 0;
    for b in digits {
        if !b.is_ascii_digit() {
            return None;
        }
        n = n * 10 + u64::from(*b - b'0');
    }
    Some(n)
}

// A table, and no `pow`, which multiplies its way up anew for each amount.
const POWERS_OF_TEN: [u64; 7] = [1, 10, 100, 1_000, 10_000, 100_000, 1_000_000];

/// `n` with `k` zeros behind it.
fn scaled(n: u64, k: usize) -> u64
    requires small { n < 10 ^ 12 }
    requires zeros { k ≤ 6 }
    ensures value { result ≡ n * 10 ^ k }
    ensures bound { result < 10 ^ 18 }
{
    n * POWERS_OF_TEN[k]
}

/// An amount of at most so many decimals, in units of the last of them; none where the text is no such amount.
pub fn read_amount(text: &[u8], decimals: Decimals) -> Option<u64>
    ensures { result ≡ amount (places decimals) text.now }
{
    let count = decimals.count();
    let Some(point) = point_in(text) else {
        return Some(scaled(read_number(text, 12)?, count));
    };
    let behind = &text[point + 1..];
    let whole = read_number(&text[..point], 12)?;
    let fraction = read_number(behind, count)?;
    Some(scaled(whole, count) + scaled(fraction, count - behind.len()))
}
