// IEEE 754 binary64 by its 64-bit pattern: what a pattern reads as, and the pattern of a float.
ghost use Rattle.std.specs.Prelude.{◌≡◌};
ghost use Rattle.std.specs.Float.Ieee as Ieee;
ghost use Rattle.std.specs.Float.{binary64};
ghost use Rattle.float.specs.Bits.{is_nan, is_finite};

// Whether a pattern is a NaN's.
pub fn is_nan(p: u64) -> bool
    ensures { result ≡ is_nan p }
{
    p % 0x8000_0000_0000_0000 > 0x7ff0_0000_0000_0000
}

// Whether a pattern is a number's: neither infinite nor a NaN.
pub fn is_finite(p: u64) -> bool
    ensures { result ≡ is_finite p }
{
    p % 0x8000_0000_0000_0000 < 0x7ff0_0000_0000_0000
}

// The float of a pattern. The logic has one NaN, so a NaN's payload is lost here.
pub fn number(p: u64) -> f64
    ensures { result ≡ Ieee.of_bits binary64 p }
{
    if is_nan(p) {
        0.0 / 0.0
    } else {
        f64::from_bits(p)
    }
}

// The pattern of a float.
pub fn pattern(x: f64) -> u64
    ensures { result ≡ Ieee.to_bits binary64 x }
{
    if x != x {
        0x7ff8_0000_0000_0000
    } else {
        f64::to_bits(x)
    }
}
