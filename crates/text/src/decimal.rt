// A float as text: a decimal, the digits of its pattern, or a name. A decimal is never rounded: one that no float is equal to is refused with its neighbours.
ghost use Rattle.std.specs.Prelude.{◌≡◌, true, cond, ◌+◌, ◌*◌, ◌^◌, ◌<◌, ◌≤◌, eqb, length, Ok, Err};
ghost use Rattle.float.specs.Float.{with_sign_bit};
ghost use Rattle.text.specs.declared.decimal.DecimalError.TheVariants.{Between};
ghost use Rattle.text.specs.Refusals.{of_numeral};
ghost use Rattle.text.specs.Decimal.{all_digits, value_of, decimal_of, parts_of, point_of, plain_of, signed_of, pattern_of, named_of, float_of};
ghost use Rattle.text.specs.Doubling.{Doubled};

use crate::fields::place_of;
use crate::numeral::{NumeralError, digits, hex_digits};
use crate::scan::find;

// Why a text is no float.
#[derive(Clone, Copy, Debug, PartialEq, Eq)]
pub enum DecimalError {
    NoNumber,
    // 64 bits do not hold the whole part, or the pattern.
    TooLarge,
    // More digits after the point than are read.
    TooLong,
    // It lies between two floats: the pattern of the one nearer to zero, which the next pattern follows.
    Between(u64),
}

impl From<NumeralError> for DecimalError {
    ghost from_gives = { λ e d. d ≡ of_numeral e };

    fn from(e: NumeralError) -> DecimalError {
        match e {
            NumeralError::NoNumber => DecimalError::NoNumber,
            NumeralError::TooLarge => DecimalError::TooLarge,
        }
    }
}

// How many digits after the point are read: no float has more than 1074.
const DIGITS: usize = 1100;

const TWO_52: u64 = 0x10_0000_0000_0000;

const TWO_53: u64 = 0x20_0000_0000_0000;

fn all_digits(s: &[u8]) -> bool
    ensures { result ≡ all_digits s.now }
{
    s.iter().all(|b| b.is_ascii_digit())
}

// Doubles the number that the digits make, in place; what is carried out of the first digit.
fn double(f: &mut [u8]) -> u64
    requires { all_digits f.old ≡ true }
    ensures { Doubled f.old f.new result }
{
    let mut carry: u8 = 0;
    for i in (0..f.len()).rev() {
        let d = 2 * (f[i] - b'0') + carry;
        f[i] = b'0' + d % 10;
        carry = d / 10;
    }
    u64::from(carry)
}

// Whether the number that the digits make is 0.
fn is_zero(f: &[u8]) -> bool
    requires { all_digits f.now ≡ true }
    ensures { result ≡ eqb (value_of f.now) 0 }
{
    f.iter().all(|d| *d == b'0')
}

#[tactic(auto, using(crate::proofs::decimal::Settling::answers))]
fn with_sign(neg: bool, q: u64) -> u64
    requires { q < 2 ^ 63 }
    ensures { result ≡ with_sign_bit neg q }
{
    if neg {
        return 0x8000_0000_0000_0000 + q;
    }
    q
}

// The float of a pattern without a sign, or that the number lies between that float and the next.
#[tactic(auto, using(crate::proofs::decimal::Settling::answers))]
fn settle(neg: bool, q: u64, exact: bool) -> Result<u64, DecimalError>
    requires { q < 2 ^ 63 }
    ensures { result ≡ cond exact (Ok (with_sign_bit neg q)) (Err (Between (with_sign_bit neg q))) }
{
    let p = with_sign(neg, q);
    if exact {
        return Ok(p);
    }
    Err(DecimalError::Between(p))
}

// whole + f / 10^k, where 53 bits hold the whole part. Each turn brings one more binary digit of the fraction, until there are 53,
// or the last is worth a step of 2^-1074. What is then left of the fraction is less than a step of the float.
fn narrow(neg: bool, whole: u64, f: &mut [u8]) -> Result<u64, DecimalError>
    requires whole_bound { whole < 2 ^ 53 }
    requires f_value { all_digits f.old ≡ true }
    ensures { result ≡ decimal_of neg (whole * 10 ^ length f.old + value_of f.old) (length f.old) }
{
    let mut m = whole;
    let mut e = 1074;
    while m < TWO_52 {
        if e == 0 {
            break;
        }
        m = 2 * m + double(f);
        e -= 1;
    }
    settle(neg, e * TWO_52 + m, is_zero(f))
}

// The same where the whole part has more than 53 bits, of which the last are dropped: p is what the last of the 53 is worth.
fn wide(neg: bool, whole: u64, f: &[u8]) -> Result<u64, DecimalError>
    requires bound { 2 ^ 53 ≤ whole }
    requires f_value { all_digits f.now ≡ true }
    ensures { result ≡ decimal_of neg (whole * 10 ^ length f.now + value_of f.now) (length f.now) }
{
    let mut m = whole;
    let mut p = 1;
    let mut e = 1074;
    while m >= TWO_53 {
        m /= 2;
        p *= 2;
        e += 1;
    }
    if m * p == whole {
        return settle(neg, e * TWO_52 + m, is_zero(f));
    }
    settle(neg, e * TWO_52 + m, false)
}

// A whole part and the digits after the point.
fn exactly(neg: bool, whole: u64, f: &[u8]) -> Result<u64, DecimalError>
    requires f_value { all_digits f.now ≡ true }
    requires f_len_bound { length f.now ≤ 1100 }
    ensures { result ≡ decimal_of neg (whole * 10 ^ length f.now + value_of f.now) (length f.now) }
{
    if whole >= TWO_53 {
        return wide(neg, whole, f);
    }
    let mut room = [0u8; DIGITS];
    let k = f.len();
    room[..k].copy_from_slice(f);
    narrow(neg, whole, &mut room[..k])
}

#[tactic(auto, unfolding(crate::specs::Decimal::parts_of))]
fn parts(neg: bool, whole: Result<u64, NumeralError>, f: &[u8]) -> Result<u64, DecimalError>
    ensures { result ≡ parts_of neg whole f.now }
{
    let a = whole?;
    if !all_digits(f) {
        return Err(DecimalError::NoNumber);
    }
    if f.len() <= DIGITS {
        return exactly(neg, a, f);
    }
    Err(DecimalError::TooLong)
}

// A decimal without its sign.
#[tactic(auto, using(crate::proofs::decimal::Texts::points))]
fn plain(neg: bool, s: &[u8]) -> Result<u64, DecimalError>
    ensures { result ≡ plain_of neg s.now }
{
    let dot = find(s, 0, b'.');
    if dot == s.len() {
        return parts(neg, digits(10, s), b"");
    }
    let from = dot + 1;
    if from == s.len() {
        return Err(DecimalError::NoNumber);
    }
    parts(neg, digits(10, &s[..dot]), &s[from..])
}

#[tactic(auto, using(crate::proofs::decimal::Texts::sides))]
fn after_sign(s: &[u8]) -> Result<u64, DecimalError>
    ensures { result ≡ signed_of s.now }
{
    match s.strip_prefix(b"-") {
        Some(d) => plain(true, d),
        None => plain(false, s),
    }
}

#[tactic(auto, unfolding(crate::specs::Decimal::named_of))]
fn named(place: Option<usize>, s: &[u8]) -> Result<u64, DecimalError>
    ensures { result ≡ named_of place s.now }
{
    match place {
        Some(0) => Ok(0x7ff8_0000_0000_0000),
        Some(1) => Ok(0x7ff0_0000_0000_0000),
        Some(_) => Ok(0xfff0_0000_0000_0000),
        None => after_sign(s),
    }
}

// A float: 0x and the digits of its pattern; nan, inf or -inf; or a decimal.
pub fn float(s: &[u8]) -> Result<u64, DecimalError>
    ensures { result ≡ float_of s.now }
{
    if let Some(d) = hex_digits(s) {
        return Ok(digits(16, d)?);
    }
    named(place_of(s, b"nan inf -inf"), s)
}
