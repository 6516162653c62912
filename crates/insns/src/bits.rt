// The bits of an operand in its field: of a signed number, and of the raw bits of a value.
ghost use Rattle.std.specs.Prelude.{◌≡◌, ◌≤◌, ◌^◌};
ghost use Rattle.std.specs.Int.Signed.{mag};
ghost use Rattle.insns.specs.Bits.{twos, is_raw};

// n for z = n, and for z = -(n + 1): a signed field of 2 * h numbers holds z exactly where this is below h.
pub fn magnitude(z: i64) -> u64
    ensures { result ≡ mag z }
{
    if z < 0 { !z as u64 } else { z as u64 }
}

// The bits of z in a field of 2 * half numbers, or 2 * half where z does not fit.
pub fn signed_bits(z: i64, half: u64) -> u64
    requires { half ≤ 2 ^ 40 }
    ensures { result ≡ twos half z }
{
    let n = magnitude(z);
    if half <= n {
        return 2 * half;
    }
    if z < 0 {
        return 2 * half - 1 - n;
    }
    n
}

// Whether the bits of a 40-bit immediate are the raw bits of a value.
pub fn is_raw(n: u64) -> bool
    ensures { result ≡ is_raw n }
{
    match n {
        1 | 5 | 9 => true,
        _ => n % 4 == 0,
    }
}
