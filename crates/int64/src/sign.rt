// A signed 64-bit integer by its two's complement pattern: its number, its sign and its absolute value.
ghost use Rattle.std.specs.Prelude.{◌≡◌, ◌+◌, ◌%◌, ◌^◌, unsigned_abs};
ghost use Rattle.std.specs.Int.{w64};
ghost use Rattle.std.proofs.Common.{to_z, of_z};
ghost use Rattle.int64.specs.Sign as Sign;
ghost use Rattle.int64.specs.Patterns.{bits_of};

// The number that a pattern stands for.
pub fn signed(p: u64) -> i64
    ensures { result ≡ to_z w64 p }
{
    if p < 0x8000_0000_0000_0000 {
        p as i64
    } else {
        -1 - ((0xffff_ffff_ffff_ffff - p) as i64)
    }
}

// The pattern of a number.
pub fn pattern(n: i64) -> u64
    ensures { result ≡ of_z w64 n }
{
    if n >= 0 {
        n as u64
    } else {
        0xffff_ffff_ffff_ffff - ((-1 - n) as u64)
    }
}

// The number plus 2^63: patterns so raised stand in the order of their numbers.
pub fn raised(p: u64) -> u64
    ensures { result ≡ (p + 2 ^ 63) % 2 ^ 64 }
{
    std::num::wrapping_add_u64(p, 0x8000_0000_0000_0000)
}

// Whether the number is below 0.
pub fn negative(p: u64) -> bool
    ensures { result ≡ Sign.negative (to_z w64 p) }
{
    p >= 0x8000_0000_0000_0000
}

// The absolute value, which an i64 of -2^63 could not hold.
pub fn size(p: u64) -> u64
    ensures { result ≡ unsigned_abs (to_z w64 p) }
{
    if p >= 0x8000_0000_0000_0000 {
        0xffff_ffff_ffff_ffff - p + 1
    } else {
        p
    }
}

// The pattern of m, or of -m.
pub fn with_sign(neg: bool, m: u64) -> u64
    ensures { result ≡ bits_of neg m }
{
    if neg {
        std::num::wrapping_sub_u64(0, m)
    } else {
        m
    }
}
