// Numbers as text: unsigned, as an Int, as a pattern of 64 bits.
ghost use Rattle.std.specs.Prelude.{◌≡◌, ◌≤◌, true, false, drop, Ok, MatchOption};
ghost use Rattle.text.specs.Numeral.{digit_of, more_of, read_on, nat_of, is_hex, unsigned_of, positive_of, negated_of, int_of};

// Why a text is no number of 64 bits.
#[derive(Clone, Copy, Debug, PartialEq, Eq)]
pub enum NumeralError {
    NoNumber,
    // 64 bits do not hold it.
    TooLarge,
}

// The value of a digit: 0 to 9, then a to f or A to F; 16 for any other byte.
#[tactic(auto, unfolding(crate::specs::Numeral::digit_of))]
fn digit(b: u8) -> u64
    ensures { result ≡ digit_of b }
{
    match b {
        b'0'..=b'9' => u64::from(b - b'0'),
        b'A'..=b'F' => u64::from(b - b'A') + 10,
        b'a'..=b'f' => u64::from(b - b'a') + 10,
        _ => 16,
    }
}

// n and one digit after it.
#[tactic(auto, using(crate::proofs::numeral::Reading::mores))]
fn more(base: u64, n: u64, b: u8) -> Result<u64, NumeralError>
    requires le_base { 10 ≤ base }
    requires base_bound { base ≤ 16 }
    ensures { result ≡ more_of base n b }
{
    let d = digit(b);
    if base <= d {
        return Err(NumeralError::NoNumber);
    }
    if (u64::MAX - d) / base < n {
        return Err(NumeralError::TooLarge);
    }
    Ok(n * base + d)
}

// n and the digits of s after it.
#[tactic(auto, using(crate::proofs::numeral::Reading::turns))]
fn digits_after(base: u64, n: u64, s: &[u8]) -> Result<u64, NumeralError>
    requires le_base { 10 ≤ base }
    requires base_bound { base ≤ 16 }
    ensures { result ≡ read_on base (Ok n) s.now }
{
    let mut so_far = n;
    for b in s {
        so_far = more(base, so_far, *b)?;
    }
    Ok(so_far)
}

// One digit or more.
#[tactic(auto, using(crate::proofs::numeral::Reading::turns))]
pub(crate) fn digits(base: u64, s: &[u8]) -> Result<u64, NumeralError>
    requires le_base { 10 ≤ base }
    requires base_bound { base ≤ 16 }
    ensures { result ≡ nat_of base s.now }
{
    if s.is_empty() {
        return Err(NumeralError::NoNumber);
    }
    digits_after(base, 0, s)
}

// The digits after 0x, with which s starts; None where it does not.
#[tactic(auto, using(crate::proofs::numeral::Reading::hex_is))]
pub(crate) fn hex_digits(s: &[u8]) -> Option<&[u8]>
    ensures { MatchOption result (is_hex s.now ≡ false) (λ d. (is_hex s.now ≡ true) × (d.now ≡ drop 2 s.now)) }
{
    s.strip_prefix(b"0x")
}

// An unsigned number: decimal digits, or 0x and hexadecimal ones.
#[tactic(auto, using(crate::proofs::numeral::Reading::readers))]
pub fn unsigned(s: &[u8]) -> Result<u64, NumeralError>
    ensures { result ≡ unsigned_of s.now }
{
    match hex_digits(s) {
        Some(d) => digits(16, d),
        None => digits(10, s),
    }
}

// The two's complement of n where that is at most 2^63 - 1.
#[tactic(auto, unfolding(crate::specs::Numeral::positive_of))]
fn positive(r: Result<u64, NumeralError>) -> Result<u64, NumeralError>
    ensures { result ≡ positive_of r }
{
    let n = r?;
    if n < 1 << 63 {
        return Ok(n);
    }
    Err(NumeralError::TooLarge)
}

// The two's complement of -n where n is at most 2^63.
#[tactic(auto, unfolding(crate::specs::Numeral::negated_of))]
fn negated(r: Result<u64, NumeralError>) -> Result<u64, NumeralError>
    ensures { result ≡ negated_of r }
{
    let n = r?;
    if n <= 1 << 63 {
        return Ok(n.wrapping_neg());
    }
    Err(NumeralError::TooLarge)
}

// An Int: decimal digits from -2^63 to 2^63 - 1, or 0x and the digits of its two's complement.
#[tactic(auto, using(crate::proofs::numeral::Reading::readers))]
pub fn int(s: &[u8]) -> Result<u64, NumeralError>
    ensures { result ≡ int_of s.now }
{
    if let Some(d) = hex_digits(s) {
        return digits(16, d);
    }
    match s.strip_prefix(b"-") {
        Some(d) => negated(digits(10, d)),
        None => positive(digits(10, s)),
    }
}
